// Fix, for C.
ghost use Rattle.std.specs.Prelude.{◌≡◌};
ghost use Rattle.model.specs.Calls.{told};
ghost use Rattle.model.specs.Calls.Answer.{Refused};
ghost use Rattle.model.specs.Steps.{fix_on};
ghost use Rattle.job.specs.Meaning.{band};
ghost use Rattle.controller.specs.Exports.{grey_job, sized, shown};

use crate::answer::Answer;
use crate::make::make;
use tone::Grey;

// Fixes the square at a row and a column and answers its code: 1 for the size, then 2 for a band, 3 outside the drawing, 4 where it is fixed,
// 5 where a lower neighbour is open.
#[unsafe(no_mangle)]
pub extern "C" fn sumbelgo_fix(
    rows: usize,
    columns: usize,
    least: i32,
    drawing: &[Grey],
    amounts: &mut [Grey],
    codes: &mut [u8],
    row: usize,
    column: usize,
) -> Answer
    ensures answer { result ≡ shown (sized rows columns (fix_on (grey_job rows columns least drawing.now) row column (band codes.old amounts.old)) (told (Refused 1) (band codes.old amounts.old))).answer }
    ensures bands { band codes.new amounts.new ≡ (sized rows columns (fix_on (grey_job rows columns least drawing.now) row column (band codes.old amounts.old)) (told (Refused 1) (band codes.old amounts.old))).state }
{
    match make(rows, columns, least) {
        Ok(job) => Answer::from(job.fix(drawing, amounts, codes, row, column)),
        Err(refusal) => Answer::from(refusal),
    }
}
