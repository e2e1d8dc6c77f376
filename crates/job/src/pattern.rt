// What lies around a square, without places: squares a whole period apart inside a drawing have the same pattern.
ghost use Rattle.std.specs.Prelude.{◌≡◌, length, slice_index_or};
ghost use Rattle.grid.specs.Directions.{number_of};
ghost use Rattle.job.specs.declared.kind.Kind.TheVariants.{Neither};

use crate::kind::Kind;
use grid::Direction;

// What lies in a direction, of eight kinds by direction. They are a bare array: its length is asked here and in the two functions that sum up a pattern,
// all private, where a struct around it would have to be named at each.
pub fn kind_in(kinds: &[Kind; 8], direction: Direction) -> Kind
    requires { length kinds.now ≡ 8 }
    ensures { result ≡ slice_index_or kinds.now (number_of direction) Neither }
{
    kinds[direction as usize]
}

// The kinds by direction, the weights of the higher ones added, and the last direction of a higher one, if there is one.
// It keeps no place, so that one pattern serves all squares of a row between its ends.
#[derive(Clone, Copy)]
pub struct Pattern {
    pub kinds: [Kind; 8],
    pub weights: u8,
    pub last: Option<Direction>,
    ghost full: { length kinds ≡ 8 },
}

impl Pattern {
    // What lies in a direction.
    pub fn kind(&self, direction: Direction) -> Kind
        ensures { result ≡ slice_index_or self.now.kinds (number_of direction) Neither }
    {
        kind_in(&self.kinds, direction)
    }
}
