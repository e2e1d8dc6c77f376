// From a plain PGM to the raw PBM of its draft, bytes to bytes: Knuth's plan, the threshold 128, every square fixed.
#![tactic(auto)]

mod conversion;
mod fault;
mod finished;
mod laws;
mod tones;

pub use conversion::draft;
pub use fault::DraftFault;
pub use laws::every_square_is_drafted;
