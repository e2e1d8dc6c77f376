// Plans: a rank for each row and column, which repeats by two periods and differs between squares that touch.
#![tactic(auto)]

mod doubling;
mod knuth;
mod laws;
mod layer;
mod layered;
mod matrix;
mod mirror;
mod optional;
mod plan;
mod reverse;
mod shift;
mod table;
mod turn;
mod two_kinds;

pub use doubling::Doubling;
pub use either::Either;
pub use knuth::Knuth;
pub use laws::{touching_modulo_periods_differ, touching_on_the_plane_differ};
pub use layer::Layer;
pub use layered::Layered;
pub use mirror::Mirror;
pub use plan::Plan;
pub use reverse::Reverse;
pub use shift::Shift;
pub use table::Table;
pub use turn::Turn;
