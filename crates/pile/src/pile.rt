// A pile of layers over one of the plans.
ghost use Rattle.std.specs.Prelude.{◌≡◌};
ghost use Rattle.pile.specs.Piles.{laid, nth, base_ranks};

use crate::any_layer::AnyLayer;
use crate::base::Base;
use plan::{Layered, Plan};

// A plan with a layer over it, or none.
type Laid<P> = Layered<P, Option<AnyLayer>>;

// Five layers, each of which may be missing.
pub type Pile = Laid<Laid<Laid<Laid<Laid<Base>>>>>;

// The plan with the layers over it, the first of them lowest. Each layer makes another type, so that no loop lays them.
pub fn piled(base: Base, layers: [Option<AnyLayer>; 5]) -> Pile
    ensures { ⟦<Pile as Plan>⟧.meaning result ≡ laid (nth layers 4) (laid (nth layers 3) (laid (nth layers 2) (laid (nth layers 1) (laid (nth layers 0) (base_ranks base))))) }
{
    let one = Layered::new(base, layers[0]);
    let two = Layered::new(one, layers[1]);
    let three = Layered::new(two, layers[2]);
    let four = Layered::new(three, layers[3]);
    Layered::new(four, layers[4])
}
