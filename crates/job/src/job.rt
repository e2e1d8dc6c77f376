// A job: what it keeps from call to call. The bands are lent anew to each call, as two slices: a struct of both would put two clauses more into each
// contract, that it still holds the same two.
use grid::Size;

mod baron;
mod closed;
mod codes;
mod finish;
mod fix;
mod follow;
mod gather;
mod halt;
mod lengths;
mod losses;
mod new;
mod open;
mod quantise;
mod ready;
mod replay;
mod resume;
mod spread;
mod tally;

pub use open::open_bands;

// The fields are private: a job whose plan were exchanged would no longer be the one that was opened.
#[derive(Drop)]
pub struct Job<P, Q> {
    size: Size,
    plan: P,
    quantiser: Q,
}
