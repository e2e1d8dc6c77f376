// A matrix of ranks that a caller supplies, which repeats over the plane. Squares that touch must differ there if it is to be a plan's.
ghost use Rattle.std.specs.Prelude.{◌≡◌, ℕ, ◌<◌, length, Decides, MatchBool, MatchResult};
ghost use Rattle.refusal.specs.Numbers.{number_of};
ghost use Rattle.plan.specs.Table.{tabled, Room, Sized, Clash, BlockApart};

use refusal::Refusal;

// So many rows of so many columns, row by row at the front of the ranks.
#[derive(Clone, Copy)]
pub(crate) struct Matrix<'a> {
    pub rows: usize,
    pub columns: usize,
    pub ranks: &'a [u8],
    ghost room: { Room rows columns (length ranks.now) },
}

// Whether the periods are 2 to 16 and there are as many ranks as squares.
fn is_sized(rows: usize, columns: usize, count: usize) -> bool
    ensures { Decides result (Sized rows columns count) }
{
    (2..=16).contains(&rows) && (2..=16).contains(&columns) && count == rows * columns
}

impl<'a> Matrix<'a> {
    // The matrix that the ranks fill. It refuses with 16 a period outside 2 to 16 or another count of ranks.
    pub(crate) fn new(rows: usize, columns: usize, ranks: &'a [u8]) -> Result<Matrix<'a>, Refusal>
        ensures { MatchResult result (λ m. Sized rows columns (length ranks.now) × (m.rows ≡ rows) × (m.columns ≡ columns) × (m.ranks.now ≡ ranks.now)) (λ e. (number_of e ≡ 16) × (Sized rows columns (length ranks.now) → ⊥)) }
    {
        if is_sized(rows, columns, ranks.len()) {
            Ok(Matrix {
                rows,
                columns,
                ranks,
            })
        } else {
            Err(Refusal::OutsideLimits)
        }
    }

    // The rank at any row and column of the plane.
    pub(crate) fn rank(&self, row: usize, column: usize) -> u8
        ensures { result ≡ tabled self.now.rows self.now.columns self.now.ranks.now row column }
    {
        self.ranks[row % self.rows * self.columns + column % self.columns]
    }

    // Whether the ranks differ between a square and those to its east, south and south-east, and between the east and the south.
    fn is_block_apart(&self, row: usize, column: usize) -> bool
        requires row { row < self.now.rows }
        requires column { column < self.now.columns }
        ensures { let rank = tabled self.now.rows self.now.columns self.now.ranks.now in MatchBool result (BlockApart rank row column) (Clash rank) }
    {
        let here = self.rank(row, column);
        let east = self.rank(row, column + 1);
        let south = self.rank(row + 1, column);
        let corner = self.rank(row + 1, column + 1);
        here != east && here != south && here != corner && east != south
    }

    // The same for each square of a row.
    fn is_row_apart(&self, row: usize) -> bool
        requires { row < self.now.rows }
        ensures { let rank = tabled self.now.rows self.now.columns self.now.ranks.now in MatchBool result ((c : ℕ) → c < self.now.columns → BlockApart rank row c) (Clash rank) }
    {
        (0..self.columns).all(|column| self.is_block_apart(row, column))
    }

    // Whether any two squares that touch have different ranks, corners and the wrap of both periods included.
    pub(crate) fn is_apart(&self) -> bool
        ensures { let rank = tabled self.now.rows self.now.columns self.now.ranks.now in MatchBool result (Clash rank → ⊥) (Clash rank) }
    {
        (0..self.rows).all(|row| self.is_row_apart(row))
    }
}
