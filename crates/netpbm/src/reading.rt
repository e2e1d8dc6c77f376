// Read: a drawing from a plain PGM without comments.
ghost use Rattle.std.specs.Prelude.{◌≡◌, length, Some, MatchResult};
ghost use Rattle.netpbm.specs.Pgm.{told_by, begins, read_fault, DrawingRead, tones_read, filled};

use crate::fault::Fault;
use crate::head::read_head;
use crate::number::Reader;
use crate::samples::read_samples;
use crate::separator::is_separator;
use grid::Size;
use refusal::Refusal;

// What was read: the drawing's size, and the offset behind its last sample.
#[derive(Clone, Copy)]
pub struct Picture {
    pub size: Size,
    pub end: usize,
}

// Whether the input begins with P2 and a separator.
fn does_begin(input: &[u8]) -> bool
    ensures { result ≡ begins input.now }
{
    matches!(input, [b'P', b'2', third, ..] if is_separator(*third))
}

// Reads the drawing's tones into the front of the band; what lies behind the tones written stays as it was, at a fault too. It
// refuses with 12 an input that begins otherwise, then by the numbers before the samples, then at the first sample at fault.
pub fn read_pgm(input: &[u8], band: &mut [u8]) -> Result<Picture, Fault>
    ensures band { band.new ≡ filled input.now (tones_read input.now (length band.old)) band.old }
    ensures answer { MatchResult result (λ p. DrawingRead input.now (length band.old) p.size.rows p.size.columns p.end) (λ f. read_fault input.now (length band.old) ≡ Some (told_by f)) }
{
    if !does_begin(input) {
        return Err(Refusal::NotPlainPgm.into());
    }
    let reader = Reader { input, position: 2 };
    let head = read_head(&reader, band.len())?;
    let end = read_samples(&reader.at(head.end), head, band)?;
    let size = head.size;
    Ok(Picture { size, end })
}
