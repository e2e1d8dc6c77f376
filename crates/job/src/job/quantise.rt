// One square worked: the step that a fix and a replay share.
ghost use Rattle.std.specs.Prelude.{◌≡◌, ◌*◌, length, slice_index_or};
ghost use Rattle.model.specs.Replays.{settle};
ghost use Rattle.job.specs.Meaning.{squares_of, setting_by};
ghost use Rattle.job.specs.Patterns.{PatternOf};

use crate::job::Job;
use crate::pattern::Pattern;
use plan::Plan;
use quantiser::Quantiser;
use tone::Tone;

impl<P: Plan, Q: Quantiser> Job<P, Q> {
    // Quantises the amount at a place, whose pattern is told: the error takes its place, the parts of the error go to the higher neighbours,
    // and the answer is the code that was chosen.
    pub(crate) fn quantise(&self, amounts: &mut [Q::Tone], place: usize, pattern: &Pattern) -> u8
        requires amounts { length amounts.old ≡ self.now.size.rows * self.now.size.columns }
        requires pattern { PatternOf (squares_of P.Plan.meaning self.now) place pattern.now }
        ensures code { result ≡ (Q.Quantiser.tables self.now.quantiser).choice (slice_index_or amounts.old place Q.Tone.Tone.algebra.zero) }
        ensures after { amounts.new ≡ settle (setting_by Q.Tone.Tone.algebra P.Plan.meaning Q.Quantiser.tables self.now) place (slice_index_or amounts.old place Q.Tone.Tone.algebra.zero) amounts.old }
    {
        let amount = amounts[place];
        let code = self.quantiser.choose(amount);
        let error = amount.difference(self.quantiser.output(code));
        amounts[place] = error;
        self.spread(amounts, place, pattern, error);
        code
    }
}
