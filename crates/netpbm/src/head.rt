// The numbers before the samples.
ghost use Rattle.std.specs.Prelude.{◌≡◌, true, Some, MatchResult};
ghost use Rattle.grid.specs.Limits.{Within};
ghost use Rattle.netpbm.specs.Pgm.{told, told_by, begins, head_fault, HeadRead};

use crate::fault::Fault;
use crate::number::{Number, Reader};
use grid::Size;
use refusal::Refusal;

// What the samples need to be read: how many there are, how great each may be, and the offset from which they follow.
#[derive(Clone, Copy)]
pub struct Head {
    pub size: Size,
    pub greatest: u8,
    pub end: usize,
}

// The size that two numbers of the file name. It refuses with 1, at no number, one outside the limits.
fn size_of(rows: Number, columns: Number) -> Result<Size, Fault>
    ensures { MatchResult result (λ s. (s.rows ≡ rows.value) × (s.columns ≡ columns.value)) (λ f. (told_by f ≡ told 1 0) × (Within rows.value columns.value → ⊥)) }
{
    Ok(Size::new(usize::from(rows.value), usize::from(columns.value))?)
}

// Reads columns, rows and the greatest sample, for a band of so many bytes. It refuses with 13 a number, then with 1 the size, then
// with 14 a greatest sample outside 1 to 255, then with 6 a band that is shorter than the drawing has squares.
pub(crate) fn read_head(reader: &Reader<'_>, room: usize) -> Result<Head, Fault>
    requires position { reader.now.position ≡ 2 }
    requires begun { begins reader.now.input.now ≡ true }
    ensures { MatchResult result (λ h. HeadRead reader.now.input.now room h.size.rows h.size.columns h.greatest h.end) (λ f. head_fault reader.now.input.now room ≡ Some (told_by f)) }
{
    let columns = reader.next_number()?;
    let rows = reader.at(columns.end).next_number()?;
    let last = reader.at(rows.end).next_number()?;
    let size = size_of(rows, columns)?;
    let greatest = last.within(1, 255)?;
    if room < size.squares() {
        return Err(Refusal::OutputTooShort.into());
    }
    Ok(Head {
        size,
        greatest,
        end: last.end,
    })
}
