// The rows of a sheet, asked of the plan.
ghost use Rattle.std.specs.Prelude.{◌≡◌, ℕ, ◌≤◌, length};
ghost use Rattle.sheet.specs.Sheets.{RowOf, Reads};

use crate::line::SheetRow;
use plan::Plan;
use std::array;

// The ranks of a row from the column 0 on, so many of them, and zeros behind.
fn ranks_from<P: Plan>(plan: &P, row: usize, count: usize) -> [u8; 16]
    requires { count ≤ 16 }
    ensures full { length result ≡ 16 }
    ensures ranks { Reads ((P.Plan.meaning plan.now).rank row) count result }
{
    array::from_fn(|column| {
        if column < count {
            plan.rank(row, column)
        } else {
            0
        }
    })
}

// A row of the plan's ranks over one column period.
pub fn sheet_row<P: Plan>(plan: &P, row: usize) -> SheetRow
    ensures { RowOf (P.Plan.meaning plan.now) row result.count result.ranks }
{
    let count = plan.column_period();
    let ranks = ranks_from(plan, row, count);
    SheetRow { ranks, count }
}
