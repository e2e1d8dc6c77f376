// One square of a drawing.
ghost use Rattle.std.specs.Prelude.{◌≡◌, ◌*◌, ◌<◌, ◌≤◌, MatchOption};
ghost use Rattle.grid.specs.Squares.{Inside};

use crate::size::Size;

// Its row and column, and its place in reading order: the squares are counted row by row. It keeps no size, so that it stays three numbers; where it
// has to lie inside a drawing, a contract says so.
#[derive(Clone, Copy, PartialEq, Eq, Debug)]
pub struct Square {
    pub row: usize,
    pub column: usize,
    pub place: usize,
}

impl Size {
    // The square at a row and a column; none outside the drawing.
    pub fn square(&self, row: usize, column: usize) -> Option<Square>
        ensures { MatchOption result (row < self.now.rows → column < self.now.columns → ⊥) (λ s. Inside self.now s × (s.row ≡ row) × (s.column ≡ column)) }
    {
        let place = self.place(row, column)?;
        Some(Square { row, column, place })
    }

    // The square at a place; none outside the drawing. It costs a division.
    pub fn square_at(&self, place: usize) -> Option<Square>
        ensures { MatchOption result (self.now.rows * self.now.columns ≤ place) (λ s. Inside self.now s × (s.place ≡ place)) }
    {
        if place >= self.squares() {
            return None;
        }
        Some(Square {
            row: place / self.columns,
            column: place % self.columns,
            place,
        })
    }
}
