// Piles: a plan and up to five layers over it, chosen at run time.
#![tactic(auto)]

mod any_layer;
mod base;
mod pile;

pub use any_layer::AnyLayer;
pub use base::Base;
pub use pile::{Pile, piled};
