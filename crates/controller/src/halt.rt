// Halt, for C.
ghost use Rattle.std.specs.Prelude.{◌≡◌};
ghost use Rattle.model.specs.Calls.{wrote};
ghost use Rattle.model.specs.Calls.Answer.{Refused};
ghost use Rattle.model.specs.Steps.{halt_on};
ghost use Rattle.job.specs.Meaning.{band};
ghost use Rattle.controller.specs.Exports.{grey_job, sized, shown};

use crate::answer::Answer;
use crate::make::make;
use tone::Grey;

// Writes the record to the front of the output and answers its length: 1 for the size, then 2 for a band, then 6 for an output that is too short.
#[unsafe(no_mangle)]
pub extern "C" fn sumbelgo_halt(
    rows: usize,
    columns: usize,
    least: i32,
    drawing: &[Grey],
    amounts: &[Grey],
    codes: &[u8],
    out: &mut [u8],
) -> Answer
    ensures answer { result ≡ shown (sized rows columns (halt_on (grey_job rows columns least drawing.now) (band codes.now amounts.now) out.old) (wrote (Refused 1) out.old)).answer }
    ensures out { out.new ≡ (sized rows columns (halt_on (grey_job rows columns least drawing.now) (band codes.now amounts.now) out.old) (wrote (Refused 1) out.old)).out }
{
    match make(rows, columns, least) {
        Ok(job) => Answer::from(job.halt(drawing, amounts, codes, out)),
        Err(refusal) => Answer::from(refusal),
    }
}
