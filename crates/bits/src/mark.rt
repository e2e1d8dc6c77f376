// Which codes have their bit standing: a raster and a map of fixed squares differ in nothing else.
ghost use Rattle.std.specs.Prelude.{◌≡◌, ℕ, Bool};
ghost use Rattle.bits.specs.Bits.{black, fixed};

// A test of codes. It is a trait and no closure, since a contract names its meaning, the function `marks`, where for a closure each contract would
// need a further clause on the results that its calls may have.
pub trait Mark {
    ghost marks: { ℕ → Bool };

    // Whether the code's bit stands.
    fn is_marked(code: u8) -> bool
        ensures { result ≡ marks code };
}

// Marks code 0, which a raster shows black.
pub struct Black;

impl Mark for Black {
    ghost marks = { black };

    fn is_marked(code: u8) -> bool {
        code == 0
    }
}

// Marks every code but 255, the one that says that a square is open.
pub struct Fixed;

impl Mark for Fixed {
    ghost marks = { fixed };

    fn is_marked(code: u8) -> bool {
        code != 255
    }
}
