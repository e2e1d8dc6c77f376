// Finish, for C.
ghost use Rattle.std.specs.Prelude.{◌≡◌};
ghost use Rattle.model.specs.Calls.{told};
ghost use Rattle.model.specs.Calls.Answer.{Refused};
ghost use Rattle.model.specs.Steps.{finish_on};
ghost use Rattle.job.specs.Meaning.{band};
ghost use Rattle.controller.specs.Exports.{grey_job, sized, shown};

use crate::answer::Answer;
use crate::make::make;
use tone::Grey;

// Fixes every ready square, rank by rank, and answers how many: 1 for the size, then 2 for a band.
#[unsafe(no_mangle)]
pub extern "C" fn sumbelgo_finish(
    rows: usize,
    columns: usize,
    least: i32,
    drawing: &[Grey],
    amounts: &mut [Grey],
    codes: &mut [u8],
) -> Answer
    ensures answer { result ≡ shown (sized rows columns (finish_on (grey_job rows columns least drawing.now) (band codes.old amounts.old)) (told (Refused 1) (band codes.old amounts.old))).answer }
    ensures bands { band codes.new amounts.new ≡ (sized rows columns (finish_on (grey_job rows columns least drawing.now) (band codes.old amounts.old)) (told (Refused 1) (band codes.old amounts.old))).state }
{
    match make(rows, columns, least) {
        Ok(job) => Answer::from(job.finish(drawing, amounts, codes)),
        Err(refusal) => Answer::from(refusal),
    }
}
