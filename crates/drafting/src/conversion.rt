// The whole way, from the bytes of a plain PGM to those of a raw PBM.
ghost use Rattle.std.specs.Prelude.{◌≡◌, ◌*◌, ◌≤◌, map, length, IfOk};
ghost use Rattle.netpbm.specs.Pbm.{Packs};
ghost use Rattle.drafting.specs.Drafts.{grey, finished, Drafts, NotTooShort};

use crate::fault::DraftFault;
use crate::finished::finish_draft;
use crate::tones::put_greys;
use grid::Size;
use netpbm::{pack, read_pgm};
use refusal::Refusal;
use tone::{Grey, Tone};

// The longest input, in bytes.
const MOST_BYTES: usize = 65_536;

// The most squares of a drawing.
const MOST_SQUARES: usize = 4_096;

// Writes the draft of a drawing with these tones, as Pack does.
fn write_draft(size: &Size, tones: &[u8], out: &mut [u8]) -> Result<usize, Refusal>
    requires few { size.now.rows * size.now.columns ≤ 4096 }
    requires tones { length tones.now ≡ size.now.rows * size.now.columns }
    ensures { Packs size.now.rows size.now.columns (finished size.now.rows size.now.columns (map grey tones.now)) out.old result out.new }
{
    let squares = size.squares();
    // Arrays for the largest drawing, cut to its squares: the library has no heap.
    let mut greys = [Grey::zero(); MOST_SQUARES];
    let mut left = [Grey::zero(); MOST_SQUARES];
    let mut marks = [0u8; MOST_SQUARES];
    let drawing = &mut greys[0..squares];
    let amounts = &mut left[0..squares];
    let codes = &mut marks[0..squares];
    put_greys(tones, drawing);
    finish_draft(size, drawing, amounts, codes);
    pack(size, codes, out)
}

// Writes the draft of the drawing that the input holds to the front of the output, and answers how many bytes that took. At a fault the
// output stays as it was.
pub fn draft(input: &[u8], out: &mut [u8]) -> Result<usize, DraftFault>
    ensures drafts { Drafts input.now out.old result out.new }
    ensures inside { IfOk result (λ n. n ≤ length out.new) }
    ensures enough { 4109 ≤ length out.old → NotTooShort result }
{
    if input.len() > MOST_BYTES {
        return Err(DraftFault::InputTooLong);
    }
    // An array, as in `write_draft`.
    let mut band = [0u8; MOST_SQUARES];
    let size = read_pgm(input, &mut band)?.size;
    write_draft(&size, &band[..size.squares()], out).or(Err(DraftFault::OutputTooShort))
}
