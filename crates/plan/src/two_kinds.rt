// A plan that is one of two kinds, for callers that learn only at run time which. It means what that one means.
ghost use Rattle.either.specs.Either.{either};
ghost use Rattle.std.proofs.Common.{rules};

use crate::plan::Plan;
use either::{Either, for_both};

impl<L: Plan, R: Plan> Plan for Either<L, R> {
    ghost meaning = { either L.Plan.meaning R.Plan.meaning };

    ghost lawful = { Prim.search rules };

    fn row_period(&self) -> usize {
        for_both!(self, plan => plan.row_period())
    }

    fn column_period(&self) -> usize {
        for_both!(self, plan => plan.column_period())
    }

    fn top(&self) -> u8 {
        for_both!(self, plan => plan.top())
    }

    fn rank(&self, row: usize, column: usize) -> u8 {
        for_both!(self, plan => plan.rank(row, column))
    }
}
