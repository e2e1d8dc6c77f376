// A pair of two tones is a tone, each half treated alone.
ghost use Rattle.tone.specs.Pair.{pair_algebra};
ghost use Rattle.std.proofs.Common.{rules};

use crate::pair::Pair;
use crate::tone::Tone;

// The halves are written out: a function that went through both would need a closure for two types.
impl<L: Tone, R: Tone> Tone for Pair<L, R> {
    ghost algebra = { pair_algebra L.Tone.algebra R.Tone.algebra };

    ghost lawful = { Prim.search rules };

    fn zero() -> Pair<L, R> {
        Pair {
            first: L::zero(),
            second: R::zero(),
        }
    }

    fn sum(self, other: Pair<L, R>) -> Pair<L, R> {
        Pair {
            first: self.first.sum(other.first),
            second: self.second.sum(other.second),
        }
    }

    fn difference(self, other: Pair<L, R>) -> Pair<L, R> {
        Pair {
            first: self.first.difference(other.first),
            second: self.second.difference(other.second),
        }
    }

    fn share(self, weight: u8, total: u8) -> Pair<L, R> {
        Pair {
            first: self.first.share(weight, total),
            second: self.second.share(weight, total),
        }
    }
}
