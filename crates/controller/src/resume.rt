// Resume, for C.
ghost use Rattle.std.specs.Prelude.{◌≡◌};
ghost use Rattle.model.specs.Calls.{told};
ghost use Rattle.model.specs.Calls.Answer.{Refused};
ghost use Rattle.model.specs.Steps.{resume_on};
ghost use Rattle.job.specs.Meaning.{band};
ghost use Rattle.controller.specs.Exports.{grey_job, sized, shown};

use crate::answer::Answer;
use crate::make::make;
use tone::Grey;

// Brings back the job of a record: 1 for the size, then 2 for a band, 7 for the record's form, 8 where a standing square has a lower neighbour that
// does not stand, 9 for a code that is not the definition's, which leaves a new job.
#[unsafe(no_mangle)]
pub extern "C" fn sumbelgo_resume(
    rows: usize,
    columns: usize,
    least: i32,
    drawing: &[Grey],
    amounts: &mut [Grey],
    codes: &mut [u8],
    saved: &[u8],
) -> Answer
    ensures answer { result ≡ shown (sized rows columns (resume_on (grey_job rows columns least drawing.now) saved.now (band codes.old amounts.old)) (told (Refused 1) (band codes.old amounts.old))).answer }
    ensures bands { band codes.new amounts.new ≡ (sized rows columns (resume_on (grey_job rows columns least drawing.now) saved.now (band codes.old amounts.old)) (told (Refused 1) (band codes.old amounts.old))).state }
{
    match make(rows, columns, least) {
        Ok(job) => Answer::from(job.resume(drawing, amounts, codes, saved)),
        Err(refusal) => Answer::from(refusal),
    }
}
