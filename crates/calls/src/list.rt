// A list of calls in turn.
ghost use Rattle.std.specs.Prelude.{◌≡◌, ◌≤◌, map, length, if◌then◌else◌, nat_le, OnOk, OnErr};
ghost use Rattle.model.specs.Calls.{pools};
ghost use Rattle.model.specs.Jobs.{job_of};
ghost use Rattle.model.specs.Openings.{open_refusal};
ghost use Rattle.model.specs.Runs.{run};
ghost use Rattle.model.specs.Steps.{step};
ghost use Rattle.job.specs.Answers.{refused};
ghost use Rattle.job.specs.Meaning.{meant, band};
ghost use Rattle.calls.specs.Works.{call_of, ran_of, filled, Promise};

use crate::call::{Answer, Call};
use crate::perform::perform;
use job::{Job, open_bands};
use plan::Plan;
use quantiser::Quantiser;
use refusal::Refusal;

// Works the calls in turn on a job, refused ones included. The lent memory stays three slices, as the bands stay two: a struct of them would put a clause
// more for each into the contracts, that it still holds the same.
fn work_on<P: Plan, Q: Quantiser>(
    job: &Job<P, Q>,
    drawing: &[Q::Tone],
    amounts: &mut [Q::Tone],
    codes: &mut [u8],
    bytes: &mut [u8],
    places: &mut [usize],
    errors: &mut [Q::Tone],
    calls: &[Call<'_>],
    answers: &mut [Result<Answer<Q::Tone>, Refusal>],
)
    requires { length calls.now ≤ length answers.old }
    ensures { ran_of answers.new (band codes.new amounts.new) (pools bytes.new places.new errors.new) ≡ filled (run (step (meant Q.Tone.Tone.algebra P.Plan.meaning Q.Quantiser.tables job.now drawing.now)) (map call_of calls.now) (band codes.old amounts.old) (pools bytes.old places.old errors.old)) answers.old }
{
    // By the call's index: behind a zip with iter_mut a proof knows no answer.
    for (i, call) in calls.iter().enumerate() {
        answers[i] = perform(job, drawing, amounts, codes, bytes, places, errors, *call);
    }
}

// Opens a new job and works the calls on it in turn. It refuses with 6 before anything where the list for the answers is too short, and then as
// Open does; no call is made then. Halt writes into windows of `bytes`, Losses into windows of `places` and `errors`.
pub fn work<P: Plan + Drop, Q: Quantiser + Drop>(
    rows: usize,
    columns: usize,
    plan: P,
    quantiser: Q,
    drawing: &[Q::Tone],
    amounts: &mut [Q::Tone],
    codes: &mut [u8],
    bytes: &mut [u8],
    places: &mut [usize],
    errors: &mut [Q::Tone],
    calls: &[Call<'_>],
    answers: &mut [Result<Answer<Q::Tone>, Refusal>],
) -> Result<(), Refusal>
    ensures number { refused result ≡ (if nat_le (length calls.now) (length answers.old) then open_refusal rows columns (length drawing.now) (length amounts.old) (length codes.old) else 6) }
    ensures kept { OnOk result (Promise (job_of Q.Tone.Tone.algebra rows columns (P.Plan.meaning plan) (Q.Quantiser.tables quantiser) drawing.now) calls.now answers.old answers.new (pools bytes.old places.old errors.old) (pools bytes.new places.new errors.new) (band codes.new amounts.new)) }
    ensures refused { OnErr result (ran_of answers.new (band codes.new amounts.new) (pools bytes.new places.new errors.new) ≡ ran_of answers.old (band codes.old amounts.old) (pools bytes.old places.old errors.old)) }
{
    if answers.len() < calls.len() {
        return Err(Refusal::OutputTooShort);
    }
    let size = open_bands(rows, columns, drawing, amounts, codes)?;
    let job = Job::new(size, plan, quantiser);
    work_on(
        &job, drawing, amounts, codes, bytes, places, errors, calls, answers,
    );
    Ok(())
}
