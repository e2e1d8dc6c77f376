// The calls on a job with their arguments, and what they answer.
use crate::window::Window;
use job::Totals;

// Halt and Losses write into windows of lent memory.
#[derive(Clone, Copy)]
pub enum Call<'a> {
    Fix(usize, usize),
    Follow(&'a [usize]),
    Finish,
    Halt(Window),
    Resume(&'a [u8]),
    Tally,
    Losses(Window, Window),
}

// What an accepted call answers: Fix a code; Follow how many were accepted and the refusal's number or 0; Finish, Halt and Losses a number; Tally
// four totals.
#[derive(Clone, Copy)]
pub enum Answer<T> {
    Code(u8),
    // Follow's pair as the job answers it; a Refusal here would have to be made back from the number.
    Followed(usize, u8),
    Count(usize),
    Resumed,
    Totals(Totals<T>),
}
