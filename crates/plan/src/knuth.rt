// Knuth's plan, as he printed it.
ghost use Rattle.plan.specs.Knuth.{knuth_plan};
ghost use Rattle.plan.specs.TableLaws.{knuth_lawful};

use crate::plan::Plan;

const PERIOD: usize = 8;

const TOP: u8 = 63;

const RANKS: [[u8; 8]; 8] = [
    [34, 48, 40, 32, 29, 15, 23, 31],
    [42, 58, 56, 53, 21, 5, 7, 10],
    [50, 62, 61, 45, 13, 1, 2, 18],
    [38, 46, 54, 37, 25, 17, 9, 26],
    [28, 14, 22, 30, 35, 49, 41, 33],
    [20, 4, 6, 11, 43, 59, 57, 52],
    [12, 0, 3, 19, 51, 63, 60, 44],
    [24, 16, 8, 27, 39, 47, 55, 36],
];

#[derive(Clone, Copy)]
pub struct Knuth;

impl Plan for Knuth {
    ghost meaning = { λ _. knuth_plan };

    ghost lawful = { λ s. knuth_lawful };

    fn row_period(&self) -> usize {
        PERIOD
    }

    fn column_period(&self) -> usize {
        PERIOD
    }

    fn top(&self) -> u8 {
        TOP
    }

    #[tactic(auto, unfolding(crate::specs::Knuth::knuth_rows))]
    fn rank(&self, row: usize, column: usize) -> u8 {
        RANKS[row % PERIOD][column % PERIOD]
    }
}
