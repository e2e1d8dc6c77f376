// Whether the lent bands belong to the job.
ghost use Rattle.std.specs.Prelude.{◌≡◌};
ghost use Rattle.model.specs.Jobs.{fits};
ghost use Rattle.job.specs.Meaning.{meant, band};

use crate::job::Job;
use plan::Plan;
use quantiser::Quantiser;

impl<P: Plan, Q: Quantiser> Job<P, Q> {
    // Whether each band is as long as the drawing has squares: every call asks this before all else.
    pub(crate) fn lengths_match(
        &self,
        drawing: &[Q::Tone],
        amounts: &[Q::Tone],
        codes: &[u8],
    ) -> bool
        ensures { result ≡ fits (meant Q.Tone.Tone.algebra P.Plan.meaning Q.Quantiser.tables self.now drawing.now) (band codes.now amounts.now) }
    {
        let squares = self.size.squares();
        (drawing.len() == squares) & ((amounts.len() == squares) & (codes.len() == squares))
    }
}
