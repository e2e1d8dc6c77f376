// Where the squares of a drawing lie, and which lies next to which. All by row and column: nothing is divided.
ghost use Rattle.std.specs.Prelude.{◌≡◌, ◌<◌, MatchOption};
ghost use Rattle.grid.specs.Directions.{number_of, down, across};
ghost use Rattle.grid.specs.Lines.{plain, step_in};
ghost use Rattle.grid.specs.Neighbours.{place_of, neighbour};

use crate::direction::{Direction, Step};
use crate::size::Size;

// The next row or column, the one before or the same, of so many; none where that is off the drawing, and none from outside it.
fn stepped(at: usize, count: usize, to: Step) -> Option<usize>
    ensures value { result ≡ step_in (plain count) to at }
    ensures bound { MatchOption result Unit (λ x. x < count) }
{
    if at >= count {
        return None;
    }
    match to {
        Step::Back => at.checked_sub(1),
        Step::Stay => Some(at),
        Step::Ahead => (at + 1 < count).then_some(at + 1),
    }
}

impl Size {
    // The row that a direction leads to from a row; none off the drawing, and none from a row that is itself outside.
    pub fn row_beside(&self, row: usize, direction: Direction) -> Option<usize>
        ensures value { result ≡ step_in (plain self.now.rows) (down (number_of direction)) row }
        ensures bound { MatchOption result Unit (λ x. x < self.now.rows) }
    {
        stepped(row, self.rows, direction.down())
    }

    // The same for columns.
    pub fn column_beside(&self, column: usize, direction: Direction) -> Option<usize>
        ensures value { result ≡ step_in (plain self.now.columns) (across (number_of direction)) column }
        ensures bound { MatchOption result Unit (λ x. x < self.now.columns) }
    {
        stepped(column, self.columns, direction.across())
    }

    // The place of the square at a row and a column; none outside the drawing.
    pub fn place(&self, row: usize, column: usize) -> Option<usize>
        ensures { result ≡ place_of self.now.rows self.now.columns row column }
    {
        if row >= self.rows || column >= self.columns {
            return None;
        }
        Some(row * self.columns + column)
    }

    // The place of the square next to the one at a row and a column; none where that lies off the drawing, and none of a square that is
    // itself outside.
    pub fn neighbour(&self, row: usize, column: usize, direction: Direction) -> Option<usize>
        ensures { result ≡ neighbour (plain self.now.rows) (plain self.now.columns) row column (number_of direction) }
    {
        let next_row = self.row_beside(row, direction)?;
        let next_column = self.column_beside(column, direction)?;
        Some(next_row * self.columns + next_column)
    }
}
