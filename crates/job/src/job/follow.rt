// Follow: the places of a list, one after the other.
ghost use Rattle.std.specs.Prelude.{◌≡◌, ◌+◌, ◌*◌, ◌<◌, length};
ghost use Rattle.model.specs.Calls.{told};
ghost use Rattle.model.specs.Steps.{follow_on};
ghost use Rattle.job.specs.Answers.{coded, followed};
ghost use Rattle.job.specs.Meaning.{meant, setting_by, band};
ghost use Rattle.job.specs.Single.{attempt};

use crate::job::Job;
use plan::Plan;
use quantiser::Quantiser;
use refusal::Refusal;

impl<P: Plan, Q: Quantiser> Job<P, Q> {
    // Fixes the square at a place, on bands of the right length: 3 outside the drawing, 4 where it is fixed, 5 where a lower neighbour is open.
    pub(crate) fn fix_place(
        &self,
        amounts: &mut [Q::Tone],
        codes: &mut [u8],
        place: usize,
    ) -> Result<u8, Refusal>
        requires amounts { length amounts.old ≡ self.now.size.rows * self.now.size.columns }
        requires codes { length codes.old ≡ self.now.size.rows * self.now.size.columns }
        ensures { told (coded result) (band codes.new amounts.new) ≡ attempt (setting_by Q.Tone.Tone.algebra P.Plan.meaning Q.Quantiser.tables self.now) place (band codes.old amounts.old) }
    {
        let square = self.size.square_at(place).ok_or(Refusal::OutsideDrawing)?;
        self.fix_square(amounts, codes, square)
    }

    // Fixes the squares at the places of a list in turn, up to the first refusal: how many were accepted, and the refusal's number or 0.
    // A pair with a number, the form that callers hold: what was accepted before a refusal stands, so no Result would do.
    pub fn follow(
        &self,
        drawing: &[Q::Tone],
        amounts: &mut [Q::Tone],
        codes: &mut [u8],
        places: &[usize],
    ) -> (usize, u8)
        ensures { told (followed result) (band codes.new amounts.new) ≡ follow_on (meant Q.Tone.Tone.algebra P.Plan.meaning Q.Quantiser.tables self.now drawing.now) places.now (band codes.old amounts.old) }
    {
        if !self.lengths_match(drawing, amounts, codes) {
            return (0, Refusal::BandLength.number());
        }
        for (count, place) in places.iter().enumerate() {
            if let Err(refusal) = self.fix_place(amounts, codes, *place) {
                return (count, refusal.number());
            }
        }
        (places.len(), 0)
    }
}
