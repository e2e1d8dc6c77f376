// What Tally answers: four totals and the refusal's number, in one struct.
ghost use Rattle.std.specs.Prelude.{◌≡◌};
ghost use Rattle.tone.specs.Grey.{no_grey};
ghost use Rattle.refusal.specs.Numbers.{number_of};
ghost use Rattle.job.specs.Answers.{totalled};
ghost use Rattle.controller.specs.Exports.{tally, tallied};

use job::Totals;
use refusal::Refusal;
use tone::{Grey, Tone};

// The totals are those of the drawing, of the outputs and the losses of fixed squares, and of the amounts of open ones; all are 0 where the
// refusal's number is not.
#[repr(C)]
#[derive(Clone, Copy)]
pub struct Tally {
    pub drawing: Grey,
    pub outputs: Grey,
    pub losses: Grey,
    pub amounts: Grey,
    // C's layout: the number is 0 where nothing was refused.
    pub refusal: u8,
}

// A refusal, with totals of 0.
impl From<Refusal> for Tally {
    ghost from_gives = { λ refusal told. told ≡ tally no_grey no_grey no_grey no_grey (number_of refusal) };

    fn from(refusal: Refusal) -> Tally {
        Tally {
            drawing: Grey::zero(),
            outputs: Grey::zero(),
            losses: Grey::zero(),
            amounts: Grey::zero(),
            refusal: refusal.number(),
        }
    }
}

// Four totals, or why there are none.
impl From<Result<Totals<Grey>, Refusal>> for Tally {
    ghost from_gives = { λ call told. told ≡ tallied (totalled call) };

    fn from(call: Result<Totals<Grey>, Refusal>) -> Tally {
        match call {
            Ok(totals) => Tally {
                drawing: totals.drawing,
                outputs: totals.outputs,
                losses: totals.losses,
                amounts: totals.amounts,
                refusal: 0,
            },
            Err(refusal) => Tally::from(refusal),
        }
    }
}
