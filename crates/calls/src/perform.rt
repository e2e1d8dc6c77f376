// One call of a list.
ghost use Rattle.std.specs.Prelude.{◌≡◌};
ghost use Rattle.model.specs.Calls.{wrote, listed, done, pools};
ghost use Rattle.model.specs.Steps.{step};
ghost use Rattle.job.specs.Answers.{counted};
ghost use Rattle.job.specs.Meaning.{meant, band};
ghost use Rattle.calls.specs.Works.{window_of, call_of, answer_of, halt_in, losses_in};

use crate::call::{Answer, Call};
use crate::window::Window;
use job::Job;
use plan::Plan;
use quantiser::Quantiser;
use refusal::Refusal;

// Halt into a window of lent memory.
fn halt_in<P: Plan, Q: Quantiser>(
    job: &Job<P, Q>,
    drawing: &[Q::Tone],
    amounts: &[Q::Tone],
    codes: &[u8],
    bytes: &mut [u8],
    window: Window,
) -> Result<usize, Refusal>
    ensures { wrote (counted result) bytes.new ≡ halt_in (meant Q.Tone.Tone.algebra P.Plan.meaning Q.Quantiser.tables job.now drawing.now) (band codes.now amounts.now) (window_of window) bytes.old }
{
    let low = window.low(bytes.len());
    let high = window.high(bytes.len());
    job.halt(drawing, amounts, codes, &mut bytes[low..high])
}

// Losses into windows of two parts of lent memory.
fn losses_in<P: Plan, Q: Quantiser>(
    job: &Job<P, Q>,
    drawing: &[Q::Tone],
    amounts: &[Q::Tone],
    codes: &[u8],
    places: &mut [usize],
    errors: &mut [Q::Tone],
    at: Window,
    of: Window,
) -> Result<usize, Refusal>
    ensures { listed (counted result) places.new errors.new ≡ losses_in (meant Q.Tone.Tone.algebra P.Plan.meaning Q.Quantiser.tables job.now drawing.now) (band codes.now amounts.now) (window_of at) (window_of of) places.old errors.old }
{
    let low = at.low(places.len());
    let high = at.high(places.len());
    let from = of.low(errors.len());
    let to = of.high(errors.len());
    job.losses(
        drawing,
        amounts,
        codes,
        &mut places[low..high],
        &mut errors[from..to],
    )
}

// One call on a job, with outputs of its own.
pub(crate) fn perform<P: Plan, Q: Quantiser>(
    job: &Job<P, Q>,
    drawing: &[Q::Tone],
    amounts: &mut [Q::Tone],
    codes: &mut [u8],
    bytes: &mut [u8],
    places: &mut [usize],
    errors: &mut [Q::Tone],
    call: Call<'_>,
) -> Result<Answer<Q::Tone>, Refusal>
    ensures { done (answer_of result) (band codes.new amounts.new) (pools bytes.new places.new errors.new) ≡ step (meant Q.Tone.Tone.algebra P.Plan.meaning Q.Quantiser.tables job.now drawing.now) (call_of call.entry) (band codes.old amounts.old) (pools bytes.old places.old errors.old) }
{
    let answer = match call {
        Call::Fix(row, column) => Answer::Code(job.fix(drawing, amounts, codes, row, column)?),
        Call::Follow(list) => {
            let (accepted, refusal) = job.follow(drawing, amounts, codes, list);
            Answer::Followed(accepted, refusal)
        }
        Call::Finish => Answer::Count(job.finish(drawing, amounts, codes)?),
        Call::Halt(window) => Answer::Count(halt_in(job, drawing, amounts, codes, bytes, window)?),
        Call::Resume(saved) => {
            job.resume(drawing, amounts, codes, saved)?;
            Answer::Resumed
        }
        Call::Tally => Answer::Totals(job.tally(drawing, amounts, codes)?),
        Call::Losses(at, of) => Answer::Count(losses_in(
            job, drawing, amounts, codes, places, errors, at, of,
        )?),
    };
    Ok(answer)
}
