// A plan whose ranks the caller supplies.
ghost use Rattle.std.specs.Prelude.{◌≡◌, ℕ, ◌<◌, ◌≤◌, [], ◌∷◌, length, MatchResult, slice_index};
ghost use Rattle.refusal.specs.Numbers.{number_of};
ghost use Rattle.plan.specs.Ranks.{Period};
ghost use Rattle.plan.specs.Table.{tabled, table_plan, Sized, Clash, Refused, Taken};
ghost use Rattle.plan.specs.TableLaws.{table_lawful};

use crate::matrix::Matrix;
use crate::plan::Plan;
use refusal::Refusal;

// The first rows × columns bytes are the ranks of one period, row by row; the others are not read. A table is held without a heap, so it has
// an array with room for the largest period and no Vec.
#[derive(Clone, Copy)]
pub struct Table {
    rows: usize,
    columns: usize,
    ranks: [u8; 256],
    ghost height: { Period rows },
    ghost width: { Period columns },
    ghost bytes: { ((r c : ℕ) → tabled rows columns ranks r c ≤ 255) },
    ghost apart: { Clash (tabled rows columns ranks) → ⊥ },
}

// Whether the bytes can be a table's ranks.
fn check(rows: usize, columns: usize, bytes: &[u8]) -> Result<(), Refusal>
    ensures { MatchResult result (λ _. Sized rows columns (length bytes.now) × (Clash (tabled rows columns bytes.now) → ⊥)) (λ e. Refused rows columns bytes.now (number_of e)) }
{
    if Matrix::new(rows, columns, bytes)?.is_apart() {
        Ok(())
    } else {
        Err(Refusal::TouchingEqualRanks)
    }
}

// The bytes, and zeros after them.
fn padded(bytes: &[u8]) -> [u8; 256]
    requires { length bytes.now ≤ 256 }
    ensures { (k : ℕ) → k < length bytes.now → slice_index result k ≡ slice_index bytes.now k }
{
    let mut ranks = [0; 256];
    ranks[..bytes.len()].copy_from_slice(bytes);
    ranks
}

impl Table {
    // The ranks 0 2 over 3 1, those of the doubling plan of order 1.
    pub fn new() -> Table
        ensures { table_plan result.rows result.columns result.ranks ≡ table_plan 2 2 (0 ∷ 2 ∷ 3 ∷ 1 ∷ []) }
    {
        let ranks = padded(&[0, 2, 3, 1]);
        Table {
            rows: 2,
            columns: 2,
            ranks,
        }
    }

    // Takes the ranks of one period, row by row. It refuses with 16 a period outside 2 to 16 or another count of bytes, and then with 17
    // ranks that are equal at squares that touch; a refusal leaves the table as it was.
    pub fn write(&mut self, rows: usize, columns: usize, bytes: &[u8]) -> Result<(), Refusal>
        ensures { MatchResult result (λ _. Taken rows columns bytes.now (table_plan self.new.rows self.new.columns self.new.ranks)) (λ e. Refused rows columns bytes.now (number_of e) × (self.new ≡ self.old)) }
    {
        check(rows, columns, bytes)?;
        let ranks = padded(bytes);
        *self = Table {
            rows,
            columns,
            ranks,
        };
        Ok(())
    }

    // Its ranks, to be read.
    fn matrix(&self) -> Matrix<'_>
        ensures rows { result.rows ≡ self.now.rows }
        ensures columns { result.columns ≡ self.now.columns }
        ensures ranks { result.ranks.now ≡ self.now.ranks }
    {
        Matrix {
            rows: self.rows,
            columns: self.columns,
            ranks: &self.ranks,
        }
    }
}

impl Plan for Table {
    ghost meaning = { λ t. table_plan t.rows t.columns t.ranks };

    ghost lawful = { λ t. table_lawful t.rows t.columns t.ranks t.height t.width t.bytes t.apart };

    fn row_period(&self) -> usize {
        self.rows
    }

    fn column_period(&self) -> usize {
        self.columns
    }

    fn top(&self) -> u8 {
        255
    }

    fn rank(&self, row: usize, column: usize) -> u8 {
        self.matrix().rank(row, column)
    }
}
