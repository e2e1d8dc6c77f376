// Losses, for C.
ghost use Rattle.std.specs.Prelude.{◌≡◌};
ghost use Rattle.model.specs.Calls.{listed};
ghost use Rattle.model.specs.Calls.Answer.{Refused};
ghost use Rattle.model.specs.Steps.{losses_on};
ghost use Rattle.job.specs.Meaning.{band};
ghost use Rattle.controller.specs.Exports.{grey_job, sized, shown};

use crate::answer::Answer;
use crate::make::make;
use tone::Grey;

// Lists place and error of each fixed baron by rising place and answers how many there are: 1 for the size, then 2 for a band, then 6 for a list
// that is too short.
#[unsafe(no_mangle)]
pub extern "C" fn sumbelgo_losses(
    rows: usize,
    columns: usize,
    least: i32,
    drawing: &[Grey],
    amounts: &[Grey],
    codes: &[u8],
    places: &mut [usize],
    errors: &mut [Grey],
) -> Answer
    ensures answer { result ≡ shown (sized rows columns (losses_on (grey_job rows columns least drawing.now) (band codes.now amounts.now) places.old errors.old) (listed (Refused 1) places.old errors.old)).answer }
    ensures places { places.new ≡ (sized rows columns (losses_on (grey_job rows columns least drawing.now) (band codes.now amounts.now) places.old errors.old) (listed (Refused 1) places.old errors.old)).places }
    ensures errors { errors.new ≡ (sized rows columns (losses_on (grey_job rows columns least drawing.now) (band codes.now amounts.now) places.old errors.old) (listed (Refused 1) places.old errors.old)).errors }
{
    match make(rows, columns, least) {
        Ok(job) => Answer::from(job.losses(drawing, amounts, codes, places, errors)),
        Err(refusal) => Answer::from(refusal),
    }
}
