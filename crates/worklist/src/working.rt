// The work on one job: its calls, and memory of ample size to lend to them.
use crate::list::{Request, Worklist};
use calls::{Answer, Call, Window, work};
use pile::{Base, Pile, piled};
use quantiser::Threshold;
use refusal::Refusal;
use std::alloc::{AllocError, Global};
use tone::{Grey, Tone};

// The threshold where none is told.
const THRESHOLD: i32 = 128;

// The calls of a job, what they answered, and what they wrote.
#[derive(Drop)]
pub struct Outcome<'a> {
    pub calls: Vec<Call<'a>>,
    // Whether the job was opened.
    pub opened: Result<(), Refusal>,
    pub answers: Vec<Result<Answer<Grey>, Refusal>>,
    // The records that were written.
    pub bytes: Vec<u8>,
    // The places of the losses that were listed, and their errors.
    pub places: Vec<usize>,
    pub errors: Vec<Grey>,
}

// How much memory has been lent: for records, and for losses.
#[derive(Clone, Copy)]
struct Lent {
    bytes: usize,
    places: usize,
}

// The plan that was told, or Knuth's.
fn plan_of(list: &Worklist) -> Pile {
    list.plan.unwrap_or_else(|| piled(Base::Knuth, [None; 5]))
}

// The threshold that was told, or the usual one.
fn threshold_of(list: &Worklist) -> Threshold {
    Threshold {
        least: list.threshold.unwrap_or(THRESHOLD),
    }
}

// Memory for one more list of this length, behind what has been lent.
fn lend(lent: &mut usize, length: usize) -> Window {
    let start = *lent;
    *lent = start.saturating_add(length);
    Window { start, length }
}

// The most bytes of a record: four of size, a bit and a code for each square.
fn most_bytes(squares: usize) -> usize {
    squares.saturating_add(squares / 8).saturating_add(5)
}

// The call of a request, with memory of its own to write into.
fn call_of<'a>(request: &'a Request, squares: usize, lent: &mut Lent) -> Call<'a> {
    match request {
        Request::Fix(row, column) => Call::Fix(*row, *column),
        Request::Follow(places) => Call::Follow(places.as_slice()),
        Request::Finish => Call::Finish,
        Request::Halt => Call::Halt(lend(&mut lent.bytes, most_bytes(squares))),
        Request::Resume(record) => Call::Resume(record.as_slice()),
        Request::Tally => Call::Tally,
        Request::Losses => {
            let window = lend(&mut lent.places, squares);
            Call::Losses(window, window)
        }
    }
}

// The calls of the requests.
fn calls_of<'a>(
    heap: Global,
    requests: &'a [Request],
    squares: usize,
    lent: &mut Lent,
) -> Result<Vec<Call<'a>>, AllocError> {
    let mut calls = Vec::new(heap);
    for request in requests {
        calls.push(call_of(request, squares, lent))?;
    }
    Ok(calls)
}

// Opens a job and works the requests on it.
pub fn work_job<'a>(
    heap: Global,
    list: &Worklist,
    rows: usize,
    columns: usize,
    requests: &'a [Request],
) -> Result<Outcome<'a>, AllocError> {
    let squares = list.tones.len();
    let mut lent = Lent {
        bytes: 0,
        places: 0,
    };
    let calls = calls_of(heap, requests, squares, &mut lent)?;
    let none = Grey::zero();
    let mut amounts = vec![in heap; none; squares]?;
    let mut codes = vec![in heap; 0u8; squares]?;
    let mut bytes = vec![in heap; 0u8; lent.bytes]?;
    let mut places = vec![in heap; 0usize; lent.places]?;
    let mut errors = vec![in heap; none; lent.places]?;
    let mut answers = vec![in heap; Ok(Answer::Resumed); calls.len()]?;
    let opened = work(
        rows,
        columns,
        plan_of(list),
        threshold_of(list),
        list.tones.as_slice(),
        amounts.as_mut_slice(),
        codes.as_mut_slice(),
        bytes.as_mut_slice(),
        places.as_mut_slice(),
        errors.as_mut_slice(),
        calls.as_slice(),
        answers.as_mut_slice(),
    );
    Ok(Outcome {
        calls,
        opened,
        answers,
        bytes,
        places,
        errors,
    })
}
