// The sheet of a plan: its ranks over one period, row by row, for a designer to pin up.
#![tactic(auto)]

mod line;
mod ranks;

pub use line::SheetRow;
pub use ranks::sheet_row;
