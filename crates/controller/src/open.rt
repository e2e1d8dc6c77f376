// Open, for C.
ghost use Rattle.std.specs.Prelude.{◌≡◌, length};
ghost use Rattle.model.specs.Openings.{open_refusal, unless, opened_on};
ghost use Rattle.job.specs.Meaning.{band};

use job::open_bands;
use tone::Grey;

// Opens every square and lays the drawing into the amounts: 0, or 1 for the size and then 2 for a band. The threshold is not asked for, since
// nothing is quantised yet.
#[unsafe(no_mangle)]
pub extern "C" fn sumbelgo_open(
    rows: usize,
    columns: usize,
    drawing: &[Grey],
    amounts: &mut [Grey],
    codes: &mut [u8],
) -> u8
    ensures number { result ≡ open_refusal rows columns (length drawing.now) (length amounts.old) (length codes.old) }
    ensures bands { band codes.new amounts.new ≡ unless result (opened_on drawing.now (band codes.old amounts.old)) (band codes.old amounts.old) }
{
    // C reads the number; 0 is none.
    match open_bands(rows, columns, drawing, amounts, codes) {
        Ok(_) => 0,
        Err(refusal) => refusal.number(),
    }
}
