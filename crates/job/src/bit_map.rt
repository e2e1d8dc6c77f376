// The map of a record: behind the four bytes of its size a bit for each square, standing where the square was fixed.
ghost use Rattle.std.specs.Prelude.{◌≡◌, ◌+◌, ◌*◌, ◌<◌, ◌≤◌, length, MatchOption};
ghost use Rattle.bits.specs.Bits.{bytes_for};
ghost use Rattle.model.specs.Records.{stands, stand_below, right_size, spare_clear};

use crate::size_bytes::size_bytes;
use grid::Size;

// Where the codes of a record of so many squares begin.
pub fn codes_start(squares: usize) -> usize
    requires { squares ≤ 1048576 }
    ensures { result ≡ 4 + bytes_for squares }
{
    4 + squares.div_ceil(8)
}

// Bytes in which the whole map of a size lies, so that each of its bits can be read.
#[derive(Clone, Copy)]
pub struct BitMap<'a> {
    pub bytes: &'a [u8],
    pub size: Size,
    ghost whole: { 4 + bytes_for (size.rows * size.columns) ≤ length bytes.now },
}

impl<'a> BitMap<'a> {
    // The map of a size in these bytes; none where they end before it does.
    pub fn new(bytes: &'a [u8], size: &Size) -> Option<BitMap<'a>>
        ensures { MatchOption result
            (length bytes.now < 4 + bytes_for (size.now.rows * size.now.columns))
            (λ map. (map.bytes.now ≡ bytes.now) × (map.size ≡ size.now)) }
    {
        if bytes.len() < codes_start(size.squares()) {
            return None;
        }
        Some(BitMap { bytes, size: *size })
    }

    // Whether the bit of a place stands. A place behind the last square has a bit too, if it is one of the map's last byte.
    pub fn is_standing(&self, place: usize) -> bool
        requires { place < 8 * bytes_for (self.now.size.rows * self.now.size.columns) }
        ensures { result ≡ stands self.now.bytes.now place }
    {
        (self.bytes[4 + place / 8] >> (7 - place % 8)) % 2 == 1
    }

    // How many squares stand: so many codes follow the map.
    pub fn count_standing(&self) -> usize
        ensures value { result ≡ stand_below self.now.bytes.now (self.now.size.rows * self.now.size.columns) }
        ensures bound { result ≤ self.now.size.rows * self.now.size.columns }
    {
        (0..self.size.squares())
            .filter(|place| self.is_standing(*place))
            .count()
    }

    // Whether no bit behind the last square stands.
    pub fn is_spare_clear(&self) -> bool
        ensures { result ≡ spare_clear (self.now.size.rows * self.now.size.columns) self.now.bytes.now }
    {
        let squares = self.size.squares();
        (squares..8 * squares.div_ceil(8)).all(|place| !self.is_standing(place))
    }

    // Whether the bytes before the map tell its size, the high byte of each number first.
    pub fn tells_size(&self) -> bool
        ensures { result ≡ right_size self.now.size.rows self.now.size.columns self.now.bytes.now }
    {
        self.bytes.starts_with(&size_bytes(&self.size))
    }
}
