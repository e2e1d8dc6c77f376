// A layer that may be missing: then the plan below stands as it is.
ghost use Rattle.plan.specs.Layers.{optional};
ghost use Rattle.std.proofs.Common.{rules};

use crate::layer::Layer;
use crate::plan::Plan;

// The two arms differ in type and no function can hand out a `dyn`, so each question is a match.
impl<L: Layer> Layer for Option<L> {
    ghost over = { optional L.Layer.over };

    ghost lawful = { Prim.search rules };

    fn row_period<P: Plan>(&self, below: &P) -> usize {
        match self {
            Some(layer) => layer.row_period(below),
            None => below.row_period(),
        }
    }

    fn column_period<P: Plan>(&self, below: &P) -> usize {
        match self {
            Some(layer) => layer.column_period(below),
            None => below.column_period(),
        }
    }

    fn top<P: Plan>(&self, below: &P) -> u8 {
        match self {
            Some(layer) => layer.top(below),
            None => below.top(),
        }
    }

    fn rank<P: Plan>(&self, below: &P, row: usize, column: usize) -> u8 {
        match self {
            Some(layer) => layer.rank(below, row, column),
            None => below.rank(row, column),
        }
    }
}
