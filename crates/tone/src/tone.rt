// What a tone is: any kind of amount that can be added, subtracted and shared out.
ghost use Rattle.std.specs.Prelude.{◌≡◌};
ghost use Rattle.tone.specs.Algebra.{Algebra, Lawful};

// Bands hold tones in slices that the caller lends, so a tone is copied freely.
pub trait Tone: Copy {
    // What the four questions below answer. Each depends on its arguments alone.
    ghost algebra: { Algebra Self };

    // The amount that changes nothing.
    fn zero() -> Self
        ensures { result ≡ algebra.zero };

    fn sum(self, other: Self) -> Self
        ensures { result ≡ algebra.sum self other };

    // What added to `other` gives `self`.
    fn difference(self, other: Self) -> Self
        ensures { result ≡ algebra.difference self other };

    // The share of `self` by `weight` of the weight `total`. No law binds it.
    fn share(self, weight: u8, total: u8) -> Self
        ensures { result ≡ algebra.share self weight total };

    // The sum is associative and commutative, zero changes nothing, and the difference gives back the minuend.
    ghost lawful: { Lawful algebra };
}
