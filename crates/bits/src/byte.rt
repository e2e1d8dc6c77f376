// The packer of eight marks into a byte, apart from its callers so that a faster one can take its place.
ghost use Rattle.std.specs.Prelude.{◌≡◌};
ghost use Rattle.bits.specs.Bits.{bit_at, byte_of};

use crate::mark::Mark;

// The bit of the code at k; 0 where there is no code.
fn bit_at<M: Mark>(codes: &[u8], k: usize) -> u8
    ensures { result ≡ bit_at M.marks codes.now k }
{
    u8::from(codes.get(k).is_some_and(|code| M::is_marked(*code)))
}

// The bits of the first eight codes as a byte, the first code's bit highest; 0 for each code that is lacking.
pub fn pack_byte<M: Mark>(codes: &[u8]) -> u8
    ensures { result ≡ byte_of M.marks codes.now }
{
    // A loop and no fold, which was tried: behind a fold no bound of the byte at each turn was found, and the doubling may then be too large.
    let mut byte: u8 = 0;
    for k in 0..8usize {
        byte = byte * 2 + bit_at::<M>(codes, k);
    }
    byte
}
