// What holds of any lists of calls, for every plan and quantiser. Each function is the bearer of a theorem and computes nothing.
ghost use Rattle.std.specs.Prelude.{◌≡◌, ℕ, ◌*◌, List, length};
ghost use Rattle.model.specs.Jobs.{job_of};
ghost use Rattle.model.specs.Theorems.{AcceptsWhatIsWritten};
ghost use Rattle.calls.specs.Twins.{SameMeaning, SameBands};

use plan::Plan;
use quantiser::Quantiser;

// Two lists of calls that end with the same squares fixed end with the same codes and amounts, whichever squares went first: for two jobs of
// one size on one drawing, with plans and quantisers of any two types that mean the same.
pub fn same_squares_same_bands<P: Plan, V: Plan, Q: Quantiser, W: Quantiser<Tone = Q::Tone>>()
    ensures { (p : P) (v : V) (q : Q) (w : W) → SameMeaning (P.Plan.meaning p) (V.Plan.meaning v) (Q.Quantiser.tables q) (W.Quantiser.tables w) → (rows columns : ℕ) (drawing : List Q.Tone) → length drawing ≡ rows * columns → SameBands (job_of Q.Tone.Tone.algebra rows columns (P.Plan.meaning p) (Q.Quantiser.tables q) drawing) (job_of Q.Tone.Tone.algebra rows columns (V.Plan.meaning v) (W.Quantiser.tables w) drawing) }
{}

// Resume accepts a record exactly when some list of calls on a new job ends in a state from which Halt writes it, and then brings back the
// codes and amounts entire, whatever the bands held.
pub fn resume_accepts_just_what_halt_writes<P: Plan, Q: Quantiser>()
    ensures { (p : P) (q : Q) (rows columns : ℕ) (drawing : List Q.Tone) → length drawing ≡ rows * columns → AcceptsWhatIsWritten (job_of Q.Tone.Tone.algebra rows columns (P.Plan.meaning p) (Q.Quantiser.tables q) drawing) }
{}
