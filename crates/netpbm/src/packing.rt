// Pack: a draft in black and white as a raw PBM.
ghost use Rattle.netpbm.specs.Pbm.{Packs};

use crate::codes::check_codes;
use crate::header::{header_length, put_header};
use crate::raster::{put_raster, row_bytes};
use grid::Size;
use refusal::Refusal;

// Writes the draft with these codes to the front of the output and answers how many bytes that took. It refuses with 2 a code band
// that is not as long as the size has squares, then with 6 an output that is too short, then with 10 or 11 by the first square
// that is open or has a code above 1; a refusal writes nothing.
pub fn pack(size: &Size, codes: &[u8], out: &mut [u8]) -> Result<usize, Refusal>
    ensures { Packs size.now.rows size.now.columns codes.now out.old result out.new }
{
    if codes.len() != size.squares() {
        return Err(Refusal::BandLength);
    }
    let start = header_length(size.rows, size.columns);
    let total = start + size.rows * row_bytes(size.columns);
    if out.len() < total {
        return Err(Refusal::OutputTooShort);
    }
    check_codes(codes)?;
    put_header(size.rows, size.columns, &mut out[..start]);
    put_raster(size, codes, &mut out[start..total]);
    Ok(total)
}
