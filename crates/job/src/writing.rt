// The codes that a record keeps: those of the fixed squares, counted and written.
ghost use Rattle.std.specs.Prelude.{◌≡◌, ◌≤◌, length, filter};
ghost use Rattle.bits.specs.Bits.{fixed};

use crate::code::OPEN;

// How many squares are fixed, so how many codes a record has.
pub fn count_fixed(codes: &[u8]) -> usize
    ensures value { result ≡ length (filter fixed codes.now) }
    ensures bound { result ≤ length codes.now }
{
    // A sum over all, and no count behind a filter: a sum goes several codes at a step.
    codes.iter().map(|code| usize::from(*code != OPEN)).sum()
}

// Writes the codes of the fixed squares. Each is stored by its place in the output, and not through a zip with `iter_mut`, behind which a
// proof knows no element of what was written.
pub fn put_codes(codes: &[u8], out: &mut [u8])
    requires { length out.old ≡ length (filter fixed codes.now) }
    ensures { out.new ≡ filter fixed codes.now }
{
    for (at, code) in codes.iter().filter(|code| **code != OPEN).enumerate() {
        out[at] = *code;
    }
}
