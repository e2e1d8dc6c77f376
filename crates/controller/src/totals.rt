// Tally, for C.
ghost use Rattle.std.specs.Prelude.{◌≡◌};
ghost use Rattle.model.specs.Calls.Answer.{Refused};
ghost use Rattle.model.specs.Steps.{tally_on};
ghost use Rattle.job.specs.Meaning.{band};
ghost use Rattle.controller.specs.Exports.{grey_job, sized, tallied};

use crate::make::make;
use crate::tally::Tally;
use tone::Grey;

// The four totals: 1 for the size, then 2 for a band.
#[unsafe(no_mangle)]
pub extern "C" fn sumbelgo_tally(
    rows: usize,
    columns: usize,
    least: i32,
    drawing: &[Grey],
    amounts: &[Grey],
    codes: &[u8],
) -> Tally
    ensures { result ≡ tallied (sized rows columns (tally_on (grey_job rows columns least drawing.now) (band codes.now amounts.now)) (Refused 1)) }
{
    match make(rows, columns, least) {
        Ok(job) => Tally::from(job.tally(drawing, amounts, codes)),
        Err(refusal) => Tally::from(refusal),
    }
}
