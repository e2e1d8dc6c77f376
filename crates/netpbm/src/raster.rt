// The raster of a raw PBM.
ghost use Rattle.std.specs.Prelude.{◌≡◌, ◌*◌, ◌≤◌, length};
ghost use Rattle.bits.specs.Bits.{bytes_for};
ghost use Rattle.netpbm.specs.Pbm.{raster};

use bits::pack_row;
use grid::Size;

// How many bytes hold a row of so many squares.
pub(crate) fn row_bytes(columns: usize) -> usize
    requires { columns ≤ 4096 }
    ensures { result ≡ bytes_for columns }
{
    columns.div_ceil(8)
}

// Fills an output of just that length with the rows in order, each in a part of its own.
pub(crate) fn put_raster(size: &Size, codes: &[u8], out: &mut [u8])
    requires codes { length codes.now ≡ size.now.rows * size.now.columns }
    requires room { length out.old ≡ size.now.rows * bytes_for size.now.columns }
    ensures { out.new ≡ raster size.now.rows size.now.columns codes.now }
{
    let columns = size.columns;
    let width = row_bytes(columns);
    // By row and index: of what is written through `chunks_exact_mut` a proof knows the length and no byte.
    for row in 0..size.rows {
        let from = row * columns;
        let to = row * width;
        pack_row::<bits::Black>(&codes[from..from + columns], &mut out[to..to + width]);
    }
}
