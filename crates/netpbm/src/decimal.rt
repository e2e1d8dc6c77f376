// Numbers in decimal digits, as a header has them.
ghost use Rattle.std.specs.Prelude.{◌≡◌, ◌≤◌, length, decimal};

// How many digits n has.
pub(crate) fn digit_count(n: usize) -> usize
    ensures value { result ≡ length (decimal n) }
    ensures bound { result ≤ 20 }
{
    if n < 10 { 1 } else { digit_count(n / 10) + 1 }
}

// Fills an output of just that length with the digits of n, the last digit last.
pub(crate) fn put_decimal(n: usize, out: &mut [u8])
    requires { length out.old ≡ length (decimal n) }
    ensures { out.new ≡ decimal n }
{
    // A digit fits a byte, as is proved: `try_from` would answer a Result that is always Ok.
    if n < 10 {
        out[0] = b'0' + n as u8;
    } else {
        let last = out.len() - 1;
        put_decimal(n / 10, &mut out[0..last]);
        out[last] = b'0' + (n % 10) as u8;
    }
}
