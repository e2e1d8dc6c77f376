// The packer of a row of codes into a lent part of an output.
ghost use Rattle.std.specs.Prelude.{◌≡◌, ◌*◌, length, drop};
ghost use Rattle.bits.specs.Bits.{packed};

use crate::byte::pack_byte;
use crate::mark::Mark;

// The codes behind so many groups of eight; none where there are no more.
fn codes_from(codes: &[u8], groups: usize) -> &[u8]
    ensures { result.now ≡ drop (8 * groups) codes.now }
{
    codes.get(groups.saturating_mul(8)..).unwrap_or(&[])
}

// Fills the output with the bits of the codes, eight to a byte and high bit first; where the codes end, the bits are 0.
pub fn pack_row<M: Mark>(codes: &[u8], out: &mut [u8])
    ensures { out.new ≡ packed M.marks (length out.old) codes.now }
{
    for (b, byte) in out.iter_mut().enumerate() {
        *byte = pack_byte::<M>(codes_from(codes, b));
    }
}
