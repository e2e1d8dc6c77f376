// What follows from the laws, once for every tone. Each function is the bearer of a theorem and computes nothing.
ghost use Rattle.tone.specs.Laws.{Cancels, InAnyOrder, Joins, Exchanges, CutTowardZero};

use crate::tone::Tone;

// Tones that give equal sums with a third are equal, and a sum less one part is the other.
pub fn sums_cancel<T: Tone>()
    ensures { Cancels T.algebra }
{}

// A list and each permutation of it have the same sum.
pub fn sums_in_any_order<T: Tone>()
    ensures { InAnyOrder T.algebra }
{}

// The sum of two lists one after the other is the sum of their sums, from any start.
pub fn sums_join<T: Tone>()
    ensures { Joins T.algebra }
{}

// A table's rows summed and added are its columns summed and added.
pub fn sums_exchange<T: Tone>()
    ensures { Exchanges T.algebra }
{}

// Grey's share of n is n × w ÷ W rounded down, and its share of -n is the negative of that.
pub fn shares_are_cut_toward_zero()
    ensures { CutTowardZero }
{}
