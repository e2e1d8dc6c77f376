// Whether a square may be fixed: no lower neighbour is open.
ghost use Rattle.std.specs.Prelude.{◌≡◌, ℕ, ◌*◌, ◌<◌, Bool};
ghost use Rattle.grid.specs.Directions.{number_of};
ghost use Rattle.diffusion.specs.Neighbourhoods.{lower};
ghost use Rattle.diffusion.specs.Sets.{okay, ready_by};
ghost use Rattle.job.specs.Meaning.{squares_of};
ghost use Rattle.job.specs.Patterns.{PatternOf};

use crate::beside::place_beside;
use crate::job::Job;
use crate::kind::Kind;
use crate::pattern::Pattern;
use grid::Direction;
use plan::Plan;
use quantiser::Quantiser;

impl<P: Plan, Q: Quantiser> Job<P, Q> {
    // Whether the lower neighbour in a direction is fixed, if there is one. `is_fixed` tells it of a place: by a code band, or by a record.
    fn is_free<F: Fn(usize) -> bool>(
        &self,
        is_fixed: &F,
        place: usize,
        pattern: &Pattern,
        direction: Direction,
    ) -> bool
        requires callable { (t : ℕ) → t < self.now.size.rows * self.now.size.columns → F.pre is_fixed.now t }
        requires pattern { PatternOf (squares_of P.Plan.meaning self.now) place pattern.now }
        ensures { (set : ℕ → Bool) → ((t : ℕ) (r : Bool) → t < self.now.size.rows * self.now.size.columns → F.post is_fixed.now t r → r ≡ set t) → result ≡ okay set (lower (squares_of P.Plan.meaning self.now) place (number_of direction)) }
    {
        match pattern.kind(direction) {
            Kind::Lower => is_fixed(place_beside(place, self.size.columns, direction)),
            _ => true,
        }
    }

    // Whether all lower neighbours of a square are fixed.
    pub(crate) fn is_ready<F: Fn(usize) -> bool>(
        &self,
        is_fixed: F,
        place: usize,
        pattern: &Pattern,
    ) -> bool
        requires callable { (t : ℕ) → t < self.now.size.rows * self.now.size.columns → F.pre is_fixed t }
        requires pattern { PatternOf (squares_of P.Plan.meaning self.now) place pattern.now }
        ensures { (set : ℕ → Bool) → ((t : ℕ) (r : Bool) → t < self.now.size.rows * self.now.size.columns → F.post is_fixed t r → r ≡ set t) → result ≡ ready_by (squares_of P.Plan.meaning self.now) set place 8 }
    {
        Direction::ALL.iter().all(|direction| self.is_free(&is_fixed, place, pattern, *direction))
    }
}
