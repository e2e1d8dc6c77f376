// The squares of a drawing: how many there may be, where each lies, and which squares touch it.
#![tactic(auto)]

mod direction;
mod neighbour;
mod reading;
mod size;
mod square;

pub use direction::{Direction, Step};
pub use reading::ReadingOrder;
pub use size::Size;
pub use square::Square;
