// Two quantisers side by side: a quantiser for pairs.
ghost use Rattle.std.specs.Prelude.{◌≡◌, ◌*◌, ◌<◌, ◌≤◌, MatchResult};
ghost use Rattle.refusal.specs.Numbers.{number_of};
ghost use Rattle.quantiser.specs.Beside.{side_by_side, Beside};
ghost use Rattle.quantiser.specs.Joined.{side_sound};

use crate::counts::Counts;
use crate::quantiser::Quantiser;
use refusal::Refusal;
use tone::{Pair, Tone};

// The two counts; 19 where their product, which may pass a byte, is above 254.
fn kept_counts(first: u8, second: u8) -> Result<Counts, Refusal>
    requires first { 1 ≤ first }
    requires second { 1 ≤ second }
    ensures { MatchResult result (λ k. (k.first ≡ first) × (k.second ≡ second)) (λ e. (number_of e ≡ 19) × (254 < first * second)) }
{
    if u16::from(first) * u16::from(second) > 254 {
        return Err(Refusal::TooManyCodes);
    }
    Ok(Counts { first, second })
}

// It keeps both counts, so that its codes stay below their product whatever the two quantisers answer.
#[derive(Drop)]
pub struct SideBySide<L, R> {
    left: L,
    right: R,
    counts: Counts,
}

impl<L: Quantiser + Drop, R: Quantiser + Drop> SideBySide<L, R> {
    // The two side by side; 19 where the product of their counts is above 254.
    pub fn new(left: L, right: R) -> Result<SideBySide<L, R>, Refusal>
        ensures { MatchResult result (λ q. Beside (L.tables left) (R.tables right) (⟦<SideBySide<L, R> as Quantiser>⟧.tables q)) (λ e. (number_of e ≡ 19) × (254 < (L.tables left).count * (R.tables right).count)) }
    {
        let counts = kept_counts(left.count(), right.count())?;
        Ok(SideBySide {
            left,
            right,
            counts,
        })
    }
}

impl<L: Quantiser, R: Quantiser> Quantiser for SideBySide<L, R> {
    type Tone = Pair<L::Tone, R::Tone>;

    ghost tables = { λ q. side_by_side L.Tone.algebra R.Tone.algebra q.counts (L.tables q.left) (R.tables q.right) };

    ghost sound = { λ q. side_sound L.Tone.algebra R.Tone.algebra q.counts (L.tables q.left) (R.tables q.right) };

    fn count(&self) -> u8 {
        self.counts.product()
    }

    fn choose(&self, tone: Pair<L::Tone, R::Tone>) -> u8 {
        self.counts.join(self.left.choose(tone.first), self.right.choose(tone.second))
    }

    // Zero in both halves for a code that the pair lacks.
    fn output(&self, code: u8) -> Pair<L::Tone, R::Tone> {
        if code < self.counts.product() {
            Pair {
                first: self.left.output(self.counts.first_of(code)),
                second: self.right.output(self.counts.second_of(code)),
            }
        } else {
            Pair::zero()
        }
    }
}
