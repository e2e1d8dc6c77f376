// The doubling plans of order 1 to 4, each worked out from the order below it.
ghost use Rattle.std.specs.Prelude.{◌≡◌, ◌^◌, ◌≤◌, MatchResult};
ghost use Rattle.refusal.specs.Numbers.{number_of};
ghost use Rattle.plan.specs.Doubling.{corner_rank, doubling, doubling_plan};
ghost use Rattle.plan.specs.DoublingLaws.{doubled_lawful};

use crate::plan::Plan;
use refusal::Refusal;

#[derive(Clone, Copy)]
pub struct Doubling {
    order: u8,
    ghost least: { 1 ≤ order },
    ghost most: { order ≤ 4 },
}

impl Doubling {
    // The plan of an order from 1 to 4; any other order is refused with 16.
    pub fn new(order: u8) -> Result<Doubling, Refusal>
        ensures { MatchResult result (λ d. d.order ≡ order) (λ e. (number_of e ≡ 16) × ((1 ≤ order) → (order ≤ 4) → ⊥)) }
    {
        if (1..=4).contains(&order) {
            Ok(Doubling { order })
        } else {
            Err(Refusal::OutsideLimits)
        }
    }
}

// The plan of order 1, 0 2 over 3 1.
const CORNERS: [u8; 4] = [0, 2, 3, 1];

// The rank of order 1.
#[tactic(auto, unfolding(crate::specs::Doubling::corner_rank))]
fn corner(row: usize, column: usize) -> u8
    ensures { result ≡ corner_rank row column }
{
    CORNERS[row % 2 * 2 + column % 2]
}

// Both periods of an order.
fn period(order: u8) -> usize
    requires { order ≤ 4 }
    ensures { result ≡ 2 ^ order }
{
    1 << order
}

// The rank of an order, from the rank of the order below at the reduced row and column.
fn rank_of(order: u8, row: usize, column: usize) -> u8
    requires least { 1 ≤ order }
    requires most { order ≤ 4 }
    ensures { result ≡ doubling order row column }
{
    if order == 1 {
        return corner(row, column);
    }
    let s = period(order - 1);
    4 * rank_of(order - 1, row % s, column % s) + corner(row % (2 * s) / s, column % (2 * s) / s)
}

impl Plan for Doubling {
    ghost meaning = { λ d. doubling_plan d.order };

    ghost lawful = { λ d. doubled_lawful d.order d.least d.most };

    fn row_period(&self) -> usize {
        period(self.order)
    }

    fn column_period(&self) -> usize {
        period(self.order)
    }

    fn top(&self) -> u8 {
        let s = period(self.order);
        // At most 255, as is proved: `try_from` would answer a Result that is always Ok.
        (s * s - 1) as u8
    }

    fn rank(&self, row: usize, column: usize) -> u8 {
        rank_of(self.order, row, column)
    }
}
