// The digits of a number, one after the other.
ghost use Rattle.std.specs.Prelude.{◌≡◌, ◌+◌, ◌-◌, ◌*◌, ◌<◌, ◌≤◌, true, MatchOption};
ghost use Rattle.netpbm.specs.Words.{digit};

// The value with one more digit behind it; none where the byte is no digit or the number is above 65,535.
pub(crate) fn append_digit(value: u16, byte: u8) -> Option<u16>
    ensures { MatchOption result (digit byte ≡ true → 65535 < value * 10 + (byte - 48)) (λ n. (digit byte ≡ true) × (n ≡ value * 10 + (byte - 48)) × (n ≤ 65535)) }
{
    if !byte.is_ascii_digit() {
        return None;
    }
    u16::try_from(u32::from(value) * 10 + u32::from(byte - b'0')).ok()
}
