// A layer that exchanges rows and columns.
ghost use Rattle.plan.specs.Layers.{turned};
ghost use Rattle.plan.specs.LayerLaws.{turned_lawful};

use crate::layer::Layer;
use crate::plan::Plan;

#[derive(Clone, Copy)]
pub struct Turn;

impl Layer for Turn {
    ghost over = { λ _. turned };

    ghost lawful = { λ _. turned_lawful };

    fn row_period<P: Plan>(&self, below: &P) -> usize {
        below.column_period()
    }

    fn column_period<P: Plan>(&self, below: &P) -> usize {
        below.row_period()
    }

    fn top<P: Plan>(&self, below: &P) -> u8 {
        below.top()
    }

    fn rank<P: Plan>(&self, below: &P, row: usize, column: usize) -> u8 {
        below.rank(column, row)
    }
}
