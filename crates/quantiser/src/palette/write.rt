// How a palette is made: one black, and then written whole from bytes.
ghost use Rattle.std.specs.Prelude.{◌≡◌, ℕ, ◌<◌, [], length, MatchResult, slice_index_or};
ghost use Rattle.refusal.specs.Numbers.{number_of};
ghost use Rattle.quantiser.specs.Palette.{black, entry_at, Whole, Written, Fresh};

use crate::palette::{Entry, Palette};
use refusal::Refusal;
use std::array;

const BLACK: Entry = Entry {
    red: 0,
    green: 0,
    blue: 0,
};

// The colours of the threes of bytes, and black after them.
fn entries_of(threes: &[[u8; 3]]) -> [Entry; 16]
    ensures full { length result ≡ 16 }
    ensures colours { (k : ℕ) → k < 16 → slice_index_or result k black ≡ entry_at (slice_index_or threes.now k []) 0 }
{
    array::from_fn(|k| threes.get(k).map_or(BLACK, |bytes| Entry::from(*bytes)))
}

impl Palette {
    // One colour, black.
    pub fn new() -> Palette
        ensures { Fresh result }
    {
        Palette {
            entries: [BLACK; 16],
            len: 1,
        }
    }

    // Takes its colours from bytes, three to each. 18 where these are not 1 to 16 colours; the palette is then as it was.
    pub fn write(&mut self, bytes: &[u8]) -> Result<(), Refusal>
        ensures { MatchResult result (λ _. Whole (length bytes.now) × Written bytes.now self.new) (λ e. (number_of e ≡ 18) × (Whole (length bytes.now) → ⊥) × (self.new ≡ self.old)) }
    {
        let (threes, rest) = bytes.as_chunks::<3>();
        if threes.is_empty() || threes.len() > 16 || !rest.is_empty() {
            return Err(Refusal::PaletteLength);
        }
        *self = Palette {
            entries: entries_of(threes),
            // At most 16, as is proved: `try_from` would answer a Result that is always Ok.
            len: threes.len() as u8,
        };
        Ok(())
    }
}
