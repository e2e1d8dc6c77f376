// Tones: kinds of amount with a zero, a sum, a difference and a share, and the laws that they keep.
#![tactic(auto)]

mod colour;
mod grey;
mod grey_from;
mod grey_tone;
mod laws;
mod pair;
mod pair_tone;
mod share;
mod sums;
mod tone;

pub use colour::Colour;
pub use grey::Grey;
pub use laws::{
    shares_are_cut_toward_zero, sums_cancel, sums_exchange, sums_in_any_order, sums_join,
};
pub use pair::Pair;
pub use sums::total;
pub use tone::Tone;
