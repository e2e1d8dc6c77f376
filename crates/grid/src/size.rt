// The size of a drawing, within its limits for as long as it exists.
ghost use Rattle.std.specs.Prelude.{◌≡◌, ◌*◌, ◌≤◌, MatchResult};
ghost use Rattle.refusal.specs.Numbers.{number_of};
ghost use Rattle.grid.specs.Limits.{Refused};

use refusal::Refusal;

#[derive(Clone, Copy, PartialEq, Eq, Debug)]
pub struct Size {
    pub rows: usize,
    pub columns: usize,
    ghost tall: { 1 ≤ rows },
    ghost low: { rows ≤ 4096 },
    ghost wide: { 1 ≤ columns },
    ghost narrow: { columns ≤ 4096 },
    ghost small: { rows * columns ≤ 1048576 },
}

impl Size {
    // The size of so many rows and columns; 1 outside the limits. The product is formed only where it cannot overflow.
    pub fn new(rows: usize, columns: usize) -> Result<Size, Refusal>
        ensures { MatchResult result (λ s. (s.rows ≡ rows) × (s.columns ≡ columns)) (λ e. Refused rows columns (number_of e)) }
    {
        if rows < 1 || rows > 4096 || columns < 1 || columns > 4096 {
            return Err(Refusal::SizeOutsideLimits);
        }
        if rows * columns > 1_048_576 {
            return Err(Refusal::SizeOutsideLimits);
        }
        Ok(Size { rows, columns })
    }

    // How many squares there are.
    pub fn squares(&self) -> usize
        ensures value { result ≡ self.now.rows * self.now.columns }
        ensures bound { result ≤ 1048576 }
    {
        self.rows * self.columns
    }
}
