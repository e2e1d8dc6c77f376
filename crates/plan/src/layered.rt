// A plan with a layer over it.
ghost use Rattle.std.specs.Prelude.{◌≡◌};

use crate::layer::Layer;
use crate::plan::Plan;

// The plan below, which may have layers itself, and the layer.
#[derive(Clone, Copy)]
pub struct Layered<P, L> {
    below: P,
    layer: L,
}

impl<P, L> Layered<P, L> {
    // Lays the layer over the plan.
    pub fn new(below: P, layer: L) -> Layered<P, L>
        ensures below { result.below ≡ below }
        ensures layer { result.layer ≡ layer }
    {
        Layered { below, layer }
    }
}

impl<P: Plan, L: Layer> Plan for Layered<P, L> {
    ghost meaning = { λ x. L.Layer.over x.layer (P.Plan.meaning x.below) };

    ghost lawful = { λ x. L.Layer.lawful x.layer (P.Plan.meaning x.below) (P.Plan.lawful x.below) };

    fn row_period(&self) -> usize {
        self.layer.row_period(&self.below)
    }

    fn column_period(&self) -> usize {
        self.layer.column_period(&self.below)
    }

    fn top(&self) -> u8 {
        self.layer.top(&self.below)
    }

    fn rank(&self, row: usize, column: usize) -> u8 {
        self.layer.rank(&self.below, row, column)
    }
}
