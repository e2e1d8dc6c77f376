// The pattern of a square: each rank is asked once.
ghost use Rattle.std.specs.Prelude.{◌≡◌, ℕ, ◌+◌, ◌*◌, ◌<◌, ◌≤◌, length};
ghost use Rattle.grid.specs.Directions.{number_of, down, across};
ghost use Rattle.grid.specs.Lines.{plain, step};
ghost use Rattle.grid.specs.Squares.{Inside};
ghost use Rattle.job.specs.Meaning.{squares_of};
ghost use Rattle.job.specs.Patterns.{kind_at, kinds_weight, kinds_last, last_number, PatternOf};

use crate::job::Job;
use crate::kind::Kind;
use crate::pattern::{Pattern, kind_in};
use grid::{Direction, Square};
use plan::Plan;
use quantiser::Quantiser;
use std::array;

// The weights of the higher neighbours, added.
fn weights_of(kinds: &[Kind; 8]) -> u8
    requires { length kinds.now ≡ 8 }
    ensures { result ≡ kinds_weight kinds.now 8 }
{
    // A sum over all eight, with 0 for the others, and none behind a filter, whose loop stays a loop: so it becomes eight steps with no branch.
    Direction::ALL
        .iter()
        .map(|direction| match kind_in(kinds, *direction) {
            Kind::Higher => direction.weight(),
            Kind::Lower | Kind::Neither => 0,
        })
        .sum()
}

// The last direction of a higher neighbour, if there is one.
fn last_of(kinds: &[Kind; 8]) -> Option<Direction>
    requires { length kinds.now ≡ 8 }
    ensures { last_number result ≡ kinds_last kinds.now 8 }
{
    // A fold over all eight and no search from the back: where a search ends can not be foretold, and a fold has no branch.
    Direction::ALL
        .iter()
        .fold(None, |last, direction| match kind_in(kinds, *direction) {
            Kind::Higher => Some(*direction),
            Kind::Lower | Kind::Neither => last,
        })
}

impl<P: Plan, Q: Quantiser> Job<P, Q> {
    // What lies next to a square of rank `own` in a direction.
    fn kind(&self, square: Square, own: u8, direction: Direction) -> Kind
        requires { Inside self.now.size square }
        ensures { result ≡ kind_at (P.Plan.meaning self.now.plan) own (step (plain self.now.size.rows) (down (number_of direction)) square.row) (step (plain self.now.size.columns) (across (number_of direction)) square.column) }
    {
        let Some(r) = self.size.row_beside(square.row, direction) else {
            return Kind::Neither;
        };
        let Some(c) = self.size.column_beside(square.column, direction) else {
            return Kind::Neither;
        };
        let rank = self.plan.rank(r, c);
        // By `<` and no match on `cmp`, with which a single fix took five times as long as a plain one, and not below four.
        if rank < own {
            Kind::Lower
        } else if own < rank {
            Kind::Higher
        } else {
            Kind::Neither
        }
    }

    // The pattern of a square, gathered from the ranks around it.
    fn gathered(&self, square: Square) -> Pattern
        requires { Inside self.now.size square }
        ensures { PatternOf (squares_of P.Plan.meaning self.now) square.place result }
    {
        let own = self.plan.rank(square.row, square.column);
        let kinds = array::from_fn(|at| self.kind(square, own, Direction::ALL[at]));
        let weights = weights_of(&kinds);
        let last = last_of(&kinds);
        Pattern {
            kinds,
            weights,
            last,
        }
    }

    // The same. The square is taken apart and one of its own handed on: else a loop over squares would have to write down each, where it
    // keeps them in registers so.
    #[inline(always)]
    pub(crate) fn pattern(&self, square: Square) -> Pattern
        requires { Inside self.now.size square }
        ensures { PatternOf (squares_of P.Plan.meaning self.now) square.place result }
    {
        let Square { row, column, place } = square;
        self.gathered(Square { row, column, place })
    }
}
