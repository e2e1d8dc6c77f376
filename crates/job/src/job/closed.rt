// Whether the standing squares of a record could be those of a job: with a square stand its lower neighbours.
ghost use Rattle.std.specs.Prelude.{◌≡◌};
ghost use Rattle.grid.specs.Squares.{Inside};
ghost use Rattle.model.specs.Records.{stands, closed_by};
ghost use Rattle.job.specs.Meaning.{squares_of};
ghost use Rattle.job.specs.Maps.{may_stand};

use crate::job::Job;
use crate::record::Record;
use grid::Square;
use plan::Plan;
use quantiser::Quantiser;

impl<P: Plan, Q: Quantiser> Job<P, Q> {
    // Whether a square may stand as the record has it: it does not stand, or all its lower neighbours do.
    fn is_square_closed(&self, saved: &Record, square: Square) -> bool
        requires square { Inside self.now.size square }
        requires saved { saved.now.bits.size ≡ self.now.size }
        ensures { result ≡ may_stand (squares_of P.Plan.meaning self.now) saved.now.bits.bytes.now square.place }
    {
        if !saved.is_standing(square.place) {
            return true;
        }
        let pattern = self.pattern(square);
        self.is_ready(|at| saved.is_standing(at), square.place, &pattern)
    }

    // Whether with each standing square of a record stand its lower neighbours.
    pub(crate) fn is_closed(&self, saved: &Record) -> bool
        requires { saved.now.bits.size ≡ self.now.size }
        ensures { result ≡ closed_by (squares_of P.Plan.meaning self.now) (stands saved.now.bits.bytes.now) }
    {
        self.size
            .in_reading_order()
            .all(|square| self.is_square_closed(saved, square))
    }
}
