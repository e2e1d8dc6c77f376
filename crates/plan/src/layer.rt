// What a layer is: it stands over any plan, and answers by asking the plan below.
ghost use Rattle.std.specs.Prelude.{◌≡◌};
ghost use Rattle.plan.specs.Ranks.{Ranks, Lawful};

use crate::plan::Plan;

// The trait asks what `Plan` asks, of a layer and the plan below together. No body stands here, though most layers keep the periods: what a layer
// keeps is told by its own `over` alone.
pub trait Layer {
    // What the layer makes of the plan below.
    ghost over: { Self → Ranks → Ranks };

    fn row_period<P: Plan>(&self, below: &P) -> usize
        ensures { result ≡ (over self.now (P.Plan.meaning below.now)).row_period };

    fn column_period<P: Plan>(&self, below: &P) -> usize
        ensures { result ≡ (over self.now (P.Plan.meaning below.now)).column_period };

    fn top<P: Plan>(&self, below: &P) -> u8
        ensures { result ≡ (over self.now (P.Plan.meaning below.now)).top };

    fn rank<P: Plan>(&self, below: &P, row: usize, column: usize) -> u8
        ensures { result ≡ (over self.now (P.Plan.meaning below.now)).rank row column };

    // Over a plan that keeps the laws it keeps them.
    ghost lawful: { (l : Self) (m : Ranks) → Lawful m → Lawful (over l m) };
}
