// Tally: four totals over all squares.
ghost use Rattle.std.specs.Prelude.{◌≡◌, ◌*◌, length};
ghost use Rattle.tone.specs.Sums.{total as total_of};
ghost use Rattle.model.specs.Steps.{tally_on};
ghost use Rattle.job.specs.Answers.{totalled};
ghost use Rattle.job.specs.Meaning.{squares_of, meant, band};
ghost use Rattle.job.specs.Shown.{output_at, loss_at, open_at};

use crate::code::OPEN;
use crate::job::Job;
use crate::totals::Totals;
use plan::Plan;
use quantiser::Quantiser;
use refusal::Refusal;
use tone::{Tone, total};

// The amounts of the open squares, added.
fn sum_open<T: Tone>(amounts: &[T], codes: &[u8]) -> T
    requires { length codes.now ≡ length amounts.now }
    ensures { result ≡ total_of T.algebra (open_at T.algebra codes.now amounts.now) (length amounts.now) }
{
    // No filter before the fold, here and in the next: behind one the loop has two ends, and several tones can not be added at a step.
    amounts
        .iter()
        .zip(codes)
        .fold(T::zero(), |sum, (amount, code)| {
            if *code == OPEN { sum.sum(*amount) } else { sum }
        })
}

impl<P: Plan, Q: Quantiser> Job<P, Q> {
    // The outputs of the fixed squares, added.
    fn sum_outputs(&self, codes: &[u8]) -> Q::Tone
        ensures { result ≡ total_of Q.Tone.Tone.algebra (output_at Q.Tone.Tone.algebra (Q.Quantiser.tables self.now.quantiser) codes.now) (length codes.now) }
    {
        codes.iter().fold(Q::Tone::zero(), |sum, code| {
            if *code != OPEN {
                sum.sum(self.quantiser.output(*code))
            } else {
                sum
            }
        })
    }

    // The errors of the fixed barons, added.
    fn sum_losses(&self, amounts: &[Q::Tone], codes: &[u8]) -> Q::Tone
        requires codes { length codes.now ≡ self.now.size.rows * self.now.size.columns }
        requires amounts { length amounts.now ≡ self.now.size.rows * self.now.size.columns }
        ensures { result ≡ total_of Q.Tone.Tone.algebra (loss_at Q.Tone.Tone.algebra (squares_of P.Plan.meaning self.now) codes.now amounts.now) (self.now.size.rows * self.now.size.columns) }
    {
        self.size
            .in_reading_order()
            .filter(|square| self.is_lost(codes[square.place], *square))
            .fold(
                Q::Tone::zero(),
                |sum, square| sum.sum(amounts[square.place]),
            )
    }

    // The totals of the drawing, of the outputs and the losses of fixed squares, and of the amounts of open ones.
    pub fn tally(
        &self,
        drawing: &[Q::Tone],
        amounts: &[Q::Tone],
        codes: &[u8],
    ) -> Result<Totals<Q::Tone>, Refusal>
        ensures { totalled result ≡ tally_on (meant Q.Tone.Tone.algebra P.Plan.meaning Q.Quantiser.tables self.now drawing.now) (band codes.now amounts.now) }
    {
        if !self.lengths_match(drawing, amounts, codes) {
            return Err(Refusal::BandLength);
        }
        Ok(Totals {
            drawing: total(drawing),
            outputs: self.sum_outputs(codes),
            losses: self.sum_losses(amounts, codes),
            amounts: sum_open(amounts, codes),
        })
    }
}
