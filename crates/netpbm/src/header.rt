// The header of a raw PBM.
ghost use Rattle.std.specs.Prelude.{◌≡◌, ◌≤◌, length};
ghost use Rattle.netpbm.specs.Pbm.{header};

use crate::decimal::{digit_count, put_decimal};

// How long the header is: the digits, P4, a space and two line feeds.
pub(crate) fn header_length(rows: usize, columns: usize) -> usize
    ensures value { result ≡ length (header rows columns) }
    ensures bound { result ≤ 45 }
{
    digit_count(columns) + digit_count(rows) + 5
}

// Fills an output of just that length with the header.
pub(crate) fn put_header(rows: usize, columns: usize, out: &mut [u8])
    requires { length out.old ≡ length (header rows columns) }
    ensures { out.new ≡ header rows columns }
{
    let gap = digit_count(columns) + 3;
    let end = gap + 1 + digit_count(rows);
    out[..3].copy_from_slice(b"P4\n");
    put_decimal(columns, &mut out[3..gap]);
    out[gap] = b' ';
    put_decimal(rows, &mut out[gap + 1..end]);
    out[end] = b'\n';
}
