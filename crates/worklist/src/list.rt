// What the input tells: what every job is opened with, and the calls on each.
use pile::Pile;
use smallvec::SmallVec;
use tone::Grey;

// A call as its line tells it. It owns its places and bytes, short ones in itself, and has no windows yet.
#[derive(Drop)]
pub enum Request {
    Fix(usize, usize),
    Follow(SmallVec<usize, 2>),
    Finish,
    Halt,
    Resume(SmallVec<u8, 16>),
    Tally,
    Losses,
}

// All that the lines tell.
#[derive(Drop)]
pub struct Worklist {
    // The plan, where one was told.
    pub plan: Option<Pile>,
    // The threshold, where one was told.
    pub threshold: Option<i32>,
    // Rows and columns, once they were told.
    pub size: Option<(usize, usize)>,
    // The drawing.
    pub tones: Vec<Grey>,
    // The calls of all jobs in one list, so that a short job costs no list of its own.
    pub requests: Vec<Request>,
    // How many of these calls each job has, behind those of the jobs before it.
    pub jobs: Vec<usize>,
}
