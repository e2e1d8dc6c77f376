// Any of the layers, chosen at run time.
ghost use Rattle.pile.specs.Piles.{any_layer};
ghost use Rattle.pile.specs.LaidLaws.{any_lawful};

use plan::{Layer, Mirror, Plan, Reverse, Shift, Turn};

// One of the four, with what it needs. They differ in type, and no function can make a `dyn` and hand it out, so each question is a match.
#[derive(Clone, Copy)]
pub enum AnyLayer {
    Shift { rows: u8, columns: u8 },
    Mirror,
    Turn,
    Reverse,
}

impl Layer for AnyLayer {
    ghost over = { any_layer };

    ghost lawful = { any_lawful };

    fn row_period<P: Plan>(&self, below: &P) -> usize {
        match self {
            AnyLayer::Turn => Turn.row_period(below),
            _ => below.row_period(),
        }
    }

    fn column_period<P: Plan>(&self, below: &P) -> usize {
        match self {
            AnyLayer::Turn => Turn.column_period(below),
            _ => below.column_period(),
        }
    }

    fn top<P: Plan>(&self, below: &P) -> u8 {
        below.top()
    }

    fn rank<P: Plan>(&self, below: &P, row: usize, column: usize) -> u8 {
        match *self {
            AnyLayer::Shift { rows, columns } => Shift::new(rows, columns).rank(below, row, column),
            AnyLayer::Mirror => Mirror.rank(below, row, column),
            AnyLayer::Turn => Turn.rank(below, row, column),
            AnyLayer::Reverse => Reverse.rank(below, row, column),
        }
    }
}
