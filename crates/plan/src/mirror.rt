// A layer that reads each row of the plan below the other way round.
ghost use Rattle.plan.specs.Layers.{mirrored};
ghost use Rattle.plan.specs.LayerLaws.{mirrored_lawful};

use crate::layer::Layer;
use crate::plan::Plan;

#[derive(Clone, Copy)]
pub struct Mirror;

impl Layer for Mirror {
    ghost over = { λ _. mirrored };

    ghost lawful = { λ _. mirrored_lawful };

    fn row_period<P: Plan>(&self, below: &P) -> usize {
        below.row_period()
    }

    fn column_period<P: Plan>(&self, below: &P) -> usize {
        below.column_period()
    }

    fn top<P: Plan>(&self, below: &P) -> u8 {
        below.top()
    }

    fn rank<P: Plan>(&self, below: &P, row: usize, column: usize) -> u8 {
        let q = below.column_period();
        below.rank(row, q - 1 - column % q)
    }
}
