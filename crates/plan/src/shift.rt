// A layer that reads the plan below some rows further down and some columns further to the right.
ghost use Rattle.std.specs.Prelude.{◌≡◌, ◌≤◌};
ghost use Rattle.plan.specs.Layers.{along, shifted};
ghost use Rattle.plan.specs.LayerLaws.{shifted_lawful};

use crate::layer::Layer;
use crate::plan::Plan;

// A row or a column so many further on, modulo the period. It is reduced before the sum, so that none is too large.
fn further(x: usize, by: u8, period: usize) -> usize
    requires least { 2 ≤ period }
    requires most { period ≤ 16 }
    ensures { result ≡ along period by x }
{
    (x % period + usize::from(by)) % period
}

// How many rows and how many columns.
#[derive(Clone, Copy)]
pub struct Shift {
    rows: u8,
    columns: u8,
}

impl Shift {
    pub fn new(rows: u8, columns: u8) -> Shift
        ensures rows { result.rows ≡ rows }
        ensures columns { result.columns ≡ columns }
    {
        Shift { rows, columns }
    }
}

impl Layer for Shift {
    ghost over = { λ s. shifted s.rows s.columns };

    ghost lawful = { λ s m. shifted_lawful m s.rows s.columns };

    fn row_period<P: Plan>(&self, below: &P) -> usize {
        below.row_period()
    }

    fn column_period<P: Plan>(&self, below: &P) -> usize {
        below.column_period()
    }

    fn top<P: Plan>(&self, below: &P) -> u8 {
        below.top()
    }

    fn rank<P: Plan>(&self, below: &P, row: usize, column: usize) -> u8 {
        let p = below.row_period();
        let q = below.column_period();
        below.rank(further(row, self.rows, p), further(column, self.columns, q))
    }
}
