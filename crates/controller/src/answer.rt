// What an export answers: two numbers, which C reads with no knowledge of Rust's enums.
ghost use Rattle.std.specs.Prelude.{◌≡◌};
ghost use Rattle.refusal.specs.Numbers.{number_of};
ghost use Rattle.job.specs.Answers.{coded, counted, followed, resumed};
ghost use Rattle.controller.specs.Exports.{shown, answer};

use refusal::Refusal;

// The refusal's number is 0 where nothing was refused; the count is 0 where there is nothing to count.
#[repr(C)]
#[derive(Clone, Copy)]
pub struct Answer {
    pub count: usize,
    pub refusal: u8,
}

// A refusal, with a count of 0.
impl From<Refusal> for Answer {
    ghost from_gives = { λ refusal told. told ≡ answer 0 (number_of refusal) };

    fn from(refusal: Refusal) -> Answer {
        Answer {
            count: 0,
            refusal: refusal.number(),
        }
    }
}

// A count, or why there is none.
impl From<Result<usize, Refusal>> for Answer {
    ghost from_gives = { λ call told. told ≡ shown (counted call) };

    fn from(call: Result<usize, Refusal>) -> Answer {
        match call {
            Ok(count) => Answer { count, refusal: 0 },
            Err(refusal) => Answer::from(refusal),
        }
    }
}

// A code, or why there is none.
impl From<Result<u8, Refusal>> for Answer {
    ghost from_gives = { λ call told. told ≡ shown (coded call) };

    fn from(call: Result<u8, Refusal>) -> Answer {
        Answer::from(call.map(usize::from))
    }
}

// Acceptance, or why not.
impl From<Result<(), Refusal>> for Answer {
    ghost from_gives = { λ call told. told ≡ shown (resumed call) };

    fn from(call: Result<(), Refusal>) -> Answer {
        Answer::from(call.map(|()| 0usize))
    }
}

// How many were accepted, and the number of what was refused or 0.
impl From<(usize, u8)> for Answer {
    ghost from_gives = { λ pair told. told ≡ shown (followed pair) };

    fn from(pair: (usize, u8)) -> Answer {
        let (count, refusal) = pair;
        Answer { count, refusal }
    }
}
