// The sheet as plain text.
use pile::Pile;
use plan::Plan;
use sheet::{SheetRow, sheet_row};
use std::alloc::Global;
use std::fmt::Write;

// The ranks of a row, four characters to each.
fn aligned(heap: Global, row: &SheetRow) -> anyhow::Result<String> {
    let mut line = String::new(heap);
    for rank in row.ranks() {
        write!(line, "{rank:>4}")?;
    }
    Ok(line)
}

// Prints which plan it is, its periods and top, and its ranks over one period.
pub fn print_sheet(rt: &HostRuntime, words: &[String], pile: &Pile) -> anyhow::Result<()> {
    let name = words.join(rt.alloc(), " ")?;
    let rows = pile.row_period();
    let columns = pile.column_period();
    let top = pile.top();
    println!(rt; "plan: {name}")?;
    println!(rt; "row period {rows}, column period {columns}, top {top}")?;
    println!(rt)?;
    for row in 0..rows {
        let line = aligned(rt.alloc(), &sheet_row(pile, row))?;
        println!(rt; "{line}")?;
    }
    Ok(())
}
