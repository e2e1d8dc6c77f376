// Pack, for C.
ghost use Rattle.controller.specs.Packing.{Packed, PackedAt};

use crate::answer::Answer;
use grid::Size;
use netpbm::pack;

// The same for a size within the limits.
fn pack_at(size: &Size, codes: &[u8], out: &mut [u8]) -> Answer
    ensures { PackedAt size.now.rows size.now.columns codes.now out.old result out.new }
{
    Answer::from(pack(size, codes, out))
}

// Writes the draft as a raw PBM to the front of the output and answers its length: 1 for the size, then 2 for the codes' length, 6 for an output
// that is too short, and 10 or 11 by the first square that is open or has a code above 1.
#[unsafe(no_mangle)]
pub extern "C" fn sumbelgo_pack(rows: usize, columns: usize, codes: &[u8], out: &mut [u8]) -> Answer
    ensures { Packed rows columns codes.now out.old result out.new }
{
    // A match and no `and_then`, for the reason that stands at `make`.
    match Size::new(rows, columns) {
        Ok(size) => pack_at(&size, codes, out),
        Err(refusal) => Answer::from(refusal),
    }
}
