// Jobs: a plan and a quantiser at work on a drawing, in bands that the caller lends.
#![tactic(auto)]

mod beside;
mod bit_map;
mod code;
mod job;
mod kind;
mod pattern;
mod record;
mod size_bytes;
mod totals;
mod writing;

pub use job::{Job, open_bands};
pub use totals::Totals;
