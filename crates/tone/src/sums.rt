// The total of a band.
ghost use Rattle.std.specs.Prelude.{◌≡◌};
ghost use Rattle.tone.specs.Sums.{sum_of};

use crate::tone::Tone;

// All tones of a band, in the tone's own sum.
pub fn total<T: Tone>(band: &[T]) -> T
    ensures { result ≡ sum_of T.algebra band.now }
{
    band.iter().fold(T::zero(), |sum, tone| sum.sum(*tone))
}
