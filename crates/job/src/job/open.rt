// Open: a new job on a drawing.
ghost use Rattle.std.specs.Prelude.{◌≡◌, length, IfOk};
ghost use Rattle.model.specs.Openings.{open_refusal, unless, opened_on};
ghost use Rattle.job.specs.Answers.{refused};
ghost use Rattle.job.specs.Meaning.{band};

use crate::code::OPEN;
use crate::job::Job;
use grid::Size;
use plan::Plan;
use quantiser::Quantiser;
use refusal::Refusal;

// Opens every square in lent bands and lays the drawing into the amounts: 1 for the size, then 2 for a band. A refusal leaves the bands as they
// were.
pub fn open_bands<T: Copy>(
    rows: usize,
    columns: usize,
    drawing: &[T],
    amounts: &mut [T],
    codes: &mut [u8],
) -> Result<Size, Refusal>
    ensures number { refused result ≡ open_refusal rows columns (length drawing.now) (length amounts.old) (length codes.old) }
    ensures size { IfOk result (λ size. (size.rows ≡ rows) × (size.columns ≡ columns)) }
    ensures bands { band codes.new amounts.new ≡ unless (refused result) (opened_on drawing.now (band codes.old amounts.old)) (band codes.old amounts.old) }
{
    let size = Size::new(rows, columns)?;
    let squares = size.squares();
    if drawing.len() != squares || amounts.len() != squares || codes.len() != squares {
        return Err(Refusal::BandLength);
    }
    codes.fill(OPEN);
    amounts.copy_from_slice(drawing);
    Ok(size)
}

impl<P: Plan, Q: Quantiser> Job<P, Q> {
    // Opens a job: 0 and the job, with every square open and the drawing in the amounts; or the number of a refusal, 1 for the size and then
    // 2 for a band, and a job of one square. The number stands beside the job so that plan and quantiser are never lost to a refusal.
    // A pair is the form that callers hold: a Result would have to hand plan and quantiser back in its error.
    pub fn open(
        rows: usize,
        columns: usize,
        plan: P,
        quantiser: Q,
        drawing: &[Q::Tone],
        amounts: &mut [Q::Tone],
        codes: &mut [u8],
    ) -> (u8, Job<P, Q>)
        ensures number { result.0 ≡ open_refusal rows columns (length drawing.now) (length amounts.old) (length codes.old) }
        ensures rows { result.1.size.rows ≡ unless result.0 rows 1 }
        ensures columns { result.1.size.columns ≡ unless result.0 columns 1 }
        ensures plan { result.1.plan ≡ plan }
        ensures quantiser { result.1.quantiser ≡ quantiser }
        ensures bands { band codes.new amounts.new ≡ unless result.0 (opened_on drawing.now (band codes.old amounts.old)) (band codes.old amounts.old) }
    {
        match open_bands(rows, columns, drawing, amounts, codes) {
            Ok(size) => (0, Job::new(size, plan, quantiser)),
            Err(refusal) => {
                let size = Size {
                    rows: 1,
                    columns: 1,
                };
                (refusal.number(), Job::new(size, plan, quantiser))
            }
        }
    }
}
