// The nearest colour of a palette.
ghost use Rattle.std.specs.Prelude.{◌≡◌, ◌^◌, ◌<◌};
ghost use Rattle.quantiser.specs.Least.{FirstSmallest};
ghost use Rattle.quantiser.specs.Palette.{channel_distance, distance, entry_of, by_palette};
ghost use Rattle.std.proofs.Common.{arith};
ghost use Rattle.std.proofs.lemmas.Bool.{cond-false, le-ltb};
ghost use Rattle.quantiser.specs.Smallest.{least-within};

use crate::palette::{Entry, Palette};
use crate::quantiser::Quantiser;
use tone::{Colour, Grey, Tone};

// The absolute difference of one channel. It passes 32 bits, and three of them fit 64.
fn channel_apart(x: Grey, byte: u8) -> u64
    ensures value { result ≡ channel_distance x byte }
    ensures bound { result < 2 ^ 32 }
{
    u64::from(x.value.abs_diff(i32::from(byte)))
}

// The absolute differences of the channels, added.
fn apart(tone: Colour, entry: Entry) -> u64
    ensures { result ≡ distance tone entry }
{
    channel_apart(tone.red, entry.red)
        + channel_apart(tone.green, entry.green)
        + channel_apart(tone.blue, entry.blue)
}

impl Palette {
    // The code of the nearest colour, the lowest among equals.
    pub fn nearest(&self, tone: Colour) -> u8
        ensures value { result ≡ (by_palette self.now).choice tone }
        ensures relation { FirstSmallest (λ k. distance tone (entry_of self.now k)) self.now.len result }
    {
        (0..self.len)
            .min_by_key(|code| apart(tone, self.entries[usize::from(*code)]))
            .unwrap_or(0)
    }
}

impl Quantiser for Palette {
    type Tone = Colour;

    ghost tables = { by_palette };

    ghost sound = { λ q.
        record {
          some = q.some;
          few = Prim.omega (arith, q.few);
          within = λ x. least-within (λ k. distance x (entry_of q k)) q.len q.some;
          lacking = λ c h. cond-false _ _ _ (le-ltb c q.len h);
        } };

    fn count(&self) -> u8 {
        self.len
    }

    fn choose(&self, tone: Colour) -> u8 {
        self.nearest(tone)
    }

    fn output(&self, code: u8) -> Colour {
        if code < self.len {
            Colour::from(self.entries[usize::from(code)])
        } else {
            Colour::zero()
        }
    }
}
