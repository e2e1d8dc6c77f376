// Lists of calls: any list of the calls on a job, worked in turn on a new one, with the whole promise over them.
#![tactic(auto)]

mod call;
mod laws;
mod list;
mod perform;
mod window;

pub use call::{Answer, Call};
pub use laws::{resume_accepts_just_what_halt_writes, same_squares_same_bands};
pub use list::work;
pub use window::Window;
