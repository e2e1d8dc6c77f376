// Quantisers: from a tone to a code, and from a code to the tone that it puts out.
#![tactic(auto)]

mod codes;
mod counts;
mod palette;
mod quantiser;
mod side_by_side;
mod threshold;

pub use counts::Counts;
pub use palette::{Entry, Palette};
pub use quantiser::Quantiser;
pub use side_by_side::SideBySide;
pub use threshold::Threshold;
