// What the error of a square makes of the amounts around it.
ghost use Rattle.std.specs.Prelude.{◌≡◌, ◌*◌, ◌%◌, ◌<◌, length, if◌then◌else◌, nat_eq, slice_index_or, slice_set};
ghost use Rattle.grid.specs.Directions.{number_of};
ghost use Rattle.diffusion.specs.Bands.{spread};
ghost use Rattle.diffusion.specs.Draft.{sends};
ghost use Rattle.job.specs.Meaning.{squares_of};
ghost use Rattle.job.specs.Patterns.{PatternOf};

use crate::beside::place_beside;
use crate::code::OPEN;
use crate::job::Job;
use crate::kind::Kind;
use crate::pattern::Pattern;
use grid::Direction;
use plan::Plan;
use quantiser::Quantiser;
use tone::Tone;

// The part for a direction with a higher neighbour: what is left for the last, and else the share of a side or of a corner.
fn part_for<T: Tone>(direction: Direction, last: Direction, left: T, side: T, corner: T) -> T
    ensures { result ≡ (if nat_eq (number_of direction) (number_of last) then left else (if nat_eq (number_of direction % 2) 0 then side else corner)) }
{
    if direction == last {
        left
    } else if direction.weight() == 2 {
        side
    } else {
        corner
    }
}

// Adds a part to the amount at a place.
fn add<T: Tone>(amounts: &mut [T], place: usize, part: T)
    requires { place < length amounts.old }
    ensures { amounts.new ≡ slice_set amounts.old place (T.algebra.sum (slice_index_or amounts.old place T.algebra.zero) part) }
{
    amounts[place] = amounts[place].sum(part);
}

impl<P: Plan, Q: Quantiser> Job<P, Q> {
    // Adds the parts of an error to the higher neighbours: the last receives what the others leave. A baron has none.
    pub(crate) fn spread(
        &self,
        amounts: &mut [Q::Tone],
        place: usize,
        pattern: &Pattern,
        error: Q::Tone,
    )
        requires amounts { length amounts.old ≡ self.now.size.rows * self.now.size.columns }
        requires pattern { PatternOf (squares_of P.Plan.meaning self.now) place pattern.now }
        ensures { amounts.new ≡ spread Q.Tone.Tone.algebra (squares_of P.Plan.meaning self.now) place (sends Q.Tone.Tone.algebra (squares_of P.Plan.meaning self.now) place error) 8 amounts.old }
    {
        let Some(last) = pattern.last else {
            return;
        };
        let corner = error.share(1, pattern.weights);
        let side = error.share(2, pattern.weights);
        let mut given = Q::Tone::zero();
        for direction in Direction::ALL {
            if pattern.kind(direction) == Kind::Higher {
                let part = part_for(direction, last, error.difference(given), side, corner);
                given = given.sum(part);
                add(
                    amounts,
                    place_beside(place, self.size.columns, direction),
                    part,
                );
            }
        }
    }
}
