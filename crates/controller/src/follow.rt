// Follow, for C.
ghost use Rattle.std.specs.Prelude.{◌≡◌};
ghost use Rattle.model.specs.Calls.{told};
ghost use Rattle.model.specs.Calls.Answer.{Refused};
ghost use Rattle.model.specs.Steps.{follow_on};
ghost use Rattle.job.specs.Meaning.{band};
ghost use Rattle.controller.specs.Exports.{grey_job, sized, shown};

use crate::answer::Answer;
use crate::make::make;
use tone::Grey;

// Fixes the squares at the places of a list in turn, up to the first refusal, and answers how many: 1 for the size, then 2 for a band, and then
// 3, 4 or 5 as for a single fix.
#[unsafe(no_mangle)]
pub extern "C" fn sumbelgo_follow(
    rows: usize,
    columns: usize,
    least: i32,
    drawing: &[Grey],
    amounts: &mut [Grey],
    codes: &mut [u8],
    places: &[usize],
) -> Answer
    ensures answer { result ≡ shown (sized rows columns (follow_on (grey_job rows columns least drawing.now) places.now (band codes.old amounts.old)) (told (Refused 1) (band codes.old amounts.old))).answer }
    ensures bands { band codes.new amounts.new ≡ (sized rows columns (follow_on (grey_job rows columns least drawing.now) places.now (band codes.old amounts.old)) (told (Refused 1) (band codes.old amounts.old))).state }
{
    match make(rows, columns, least) {
        Ok(job) => Answer::from(job.follow(drawing, amounts, codes, places)),
        Err(refusal) => Answer::from(refusal),
    }
}
