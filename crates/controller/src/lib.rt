// The library for controllers in C: grey drawings with Knuth's plan and a threshold, in bands that the caller owns. No call keeps anything,
// so each takes the size and the threshold anew.
#![tactic(auto)]

mod answer;
mod finish;
mod fix;
mod follow;
mod halt;
mod losses;
mod make;
mod open;
mod pack;
mod read;
mod reading;
mod resume;
mod tally;
mod totals;

pub use answer::Answer;
pub use finish::sumbelgo_finish;
pub use fix::sumbelgo_fix;
pub use follow::sumbelgo_follow;
pub use halt::sumbelgo_halt;
pub use losses::sumbelgo_losses;
pub use open::sumbelgo_open;
pub use pack::sumbelgo_pack;
pub use read::sumbelgo_read;
pub use reading::Reading;
pub use resume::sumbelgo_resume;
pub use tally::Tally;
pub use totals::sumbelgo_tally;
