// Bits in bytes: eight marks to a byte, high bit first, spare bits 0.
#![tactic(auto)]

mod byte;
mod laws;
mod mark;
mod row;

pub use byte::pack_byte;
pub use laws::every_bit_is_kept;
pub use mark::{Black, Fixed, Mark};
pub use row::pack_row;
