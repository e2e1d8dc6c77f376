// Read, for C.
ghost use Rattle.std.specs.Prelude.{◌≡◌, length};
ghost use Rattle.netpbm.specs.Pgm.{read_fault, tones_read, filled};
ghost use Rattle.controller.specs.Readings.{read_answer};

use crate::reading::Reading;
use netpbm::read_pgm;

// Reads the tones of a plain PGM into the front of the band, a byte each: 12 where the input begins otherwise, 13 for a number, 1 for the size, 14 for a
// greatest sample outside 1 to 255, 6 for a band that is too short, and then 13 or 14 at the first sample at fault, which leaves the tones before it
// in the band.
#[unsafe(no_mangle)]
pub extern "C" fn sumbelgo_read(input: &[u8], band: &mut [u8]) -> Reading
    ensures answer { result ≡ read_answer input.now (read_fault input.now (length band.old)) }
    ensures band { band.new ≡ filled input.now (tones_read input.now (length band.old)) band.old }
{
    Reading::from(read_pgm(input, band))
}
