// The squares of a drawing in reading order. A loop over them counts no row and no column by hand, and divides nothing.
ghost use Rattle.std.specs.Prelude.{◌≡◌, ◌+◌, ◌-◌, ◌*◌, ◌<◌, ◌≤◌, MatchOption};
ghost use Rattle.std.specs.Iterator.{at_most};
ghost use Rattle.grid.specs.Squares.{Comes};

use crate::size::Size;
use crate::square::Square;

// The squares that are still to come: the next one is at `row` and `column`, or first in the row below where the column is behind the row's end.
#[derive(Clone, Copy)]
pub struct ReadingOrder {
    size: Size,
    row: usize,
    column: usize,
    place: usize,
    ghost at: { place ≡ row * size.columns + column },
    ghost tall: { row < size.rows },
    ghost wide: { column ≤ size.columns },
    ghost within: { place ≤ size.rows * size.columns },
}

// The row below one of so many; none below the last. It is called and marked as seldom taken, so that a loop over squares branches at the end of a row:
// with the sum in its place each square would wait for a choice between the next column and the first.
#[cold]
#[inline(never)]
fn row_below(row: usize, rows: usize) -> Option<usize>
    requires inside { row < rows }
    requires few { rows ≤ 4096 }
    ensures { MatchOption result (row + 1 ≡ rows) (λ r. (r ≡ row + 1) × (r < rows)) }
{
    (row + 1 < rows).then_some(row + 1)
}

impl ReadingOrder {
    // The row and column of the next square; none behind the last. The end is looked for only behind a row.
    fn next_at(&self) -> Option<(usize, usize)>
        ensures { MatchOption result (self.now.place ≡ self.now.size.rows * self.now.size.columns) (λ at. (at.0 < self.now.size.rows) × (at.1 < self.now.size.columns) × (self.now.place ≡ at.0 * self.now.size.columns + at.1)) }
    {
        if self.column < self.size.columns {
            return Some((self.row, self.column));
        }
        let row = row_below(self.row, self.size.rows)?;
        Some((row, 0))
    }
}

impl Iterator for ReadingOrder {
    type Item = Square;

    // The squares come by rising place, each with its row and column, until all have come.
    ghost next_gives = { λ s r t. (t.size ≡ s.size) × MatchOption r (s.place ≡ s.size.rows * s.size.columns) (Comes s.size s.place t.place) };

    ghost remaining = { λ s. at_most (s.size.rows * s.size.columns - s.place) };

    fn next(&mut self) -> Option<Square> {
        let (row, column) = self.next_at()?;
        let square = Square {
            row,
            column,
            place: self.place,
        };
        self.row = row;
        self.column = column + 1;
        self.place += 1;
        Some(square)
    }
}

impl Size {
    // All squares, from the first on.
    pub fn in_reading_order(&self) -> ReadingOrder
        ensures size { result.size ≡ self.now }
        ensures first { result.place ≡ 0 }
    {
        ReadingOrder {
            size: *self,
            row: 0,
            column: 0,
            place: 0,
        }
    }
}
