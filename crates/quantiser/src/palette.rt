// A palette of 1 to 16 colours.
ghost use Rattle.std.specs.Prelude.{◌≡◌, ◌≤◌, length};

mod conversions;
pub(crate) mod nearest;
mod write;

// A colour of a palette, three bytes. A type of its own beside Colour, whose channels are signed and wider and stand for amounts.
#[derive(Clone, Copy)]
pub struct Entry {
    pub red: u8,
    pub green: u8,
    pub blue: u8,
}

// The first `len` entries are the colours; the others are not read. An array with a length beside it, since a palette is copied and
// nothing here allocates.
#[derive(Clone, Copy)]
pub struct Palette {
    entries: [Entry; 16],
    len: u8,
    ghost full: { length entries ≡ 16 },
    ghost some: { 1 ≤ len },
    ghost few: { len ≤ 16 },
}
