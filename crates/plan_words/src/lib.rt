// Plans told in words, as `knuth mirror shift 3 200`, for programs that read one.
#![tactic(auto)]

mod fault;
mod parse;
mod words;

pub use fault::Fault;
pub use parse::parse_pile;
