// A layer that takes the squares of the plan below in the opposite order.
ghost use Rattle.plan.specs.Layers.{reversed};
ghost use Rattle.plan.specs.LayerLaws.{reversed_lawful};

use crate::layer::Layer;
use crate::plan::Plan;

#[derive(Clone, Copy)]
pub struct Reverse;

impl Layer for Reverse {
    ghost over = { λ _. reversed };

    ghost lawful = { λ _. reversed_lawful };

    fn row_period<P: Plan>(&self, below: &P) -> usize {
        below.row_period()
    }

    fn column_period<P: Plan>(&self, below: &P) -> usize {
        below.column_period()
    }

    fn top<P: Plan>(&self, below: &P) -> u8 {
        below.top()
    }

    fn rank<P: Plan>(&self, below: &P, row: usize, column: usize) -> u8 {
        below.top() - below.rank(row, column)
    }
}
