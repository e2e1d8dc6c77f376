// The plans that a pile can stand on.
ghost use Rattle.plan.specs.TableLaws.{knuth_lawful};
ghost use Rattle.plan.specs.contracts.doubling.DoublingPlan.TheImpl.Laws as doubling;
ghost use Rattle.plan.specs.contracts.table.TablePlan.TheImpl.Laws as table;
ghost use Rattle.pile.specs.Piles.{base_ranks};
ghost use Rattle.pile.specs.declared.base.Base.TheVariants.{Knuth, Doubling, Table};

use plan::{Doubling, Knuth, Plan, Table};

// Named variants say which plan it is where `Either` in `Either` would not. The plans differ in type, so each question is a match.
#[derive(Clone, Copy)]
pub enum Base {
    Knuth,
    Doubling(Doubling),
    Table(Table),
}

impl Plan for Base {
    ghost meaning = { base_ranks };

    ghost lawful = { elim [ Knuth ↦ knuth_lawful | Doubling d ↦ doubling.lawful-law d | Table t ↦ table.lawful-law t ] };

    fn row_period(&self) -> usize {
        match self {
            Base::Knuth => Knuth.row_period(),
            Base::Doubling(plan) => plan.row_period(),
            Base::Table(plan) => plan.row_period(),
        }
    }

    fn column_period(&self) -> usize {
        match self {
            Base::Knuth => Knuth.column_period(),
            Base::Doubling(plan) => plan.column_period(),
            Base::Table(plan) => plan.column_period(),
        }
    }

    fn top(&self) -> u8 {
        match self {
            Base::Knuth => Knuth.top(),
            Base::Doubling(plan) => plan.top(),
            Base::Table(plan) => plan.top(),
        }
    }

    fn rank(&self, row: usize, column: usize) -> u8 {
        match self {
            Base::Knuth => Knuth.rank(row, column),
            Base::Doubling(plan) => plan.rank(row, column),
            Base::Table(plan) => plan.rank(row, column),
        }
    }
}
