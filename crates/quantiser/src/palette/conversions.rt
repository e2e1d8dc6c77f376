// A colour of a palette from its three bytes, and as a tone.
ghost use Rattle.std.specs.Prelude.{◌≡◌};
ghost use Rattle.quantiser.specs.Palette.{entry_at, tone_of};

use crate::palette::Entry;
use tone::{Colour, Grey};

// Red, green and blue in this order.
impl From<[u8; 3]> for Entry {
    ghost from_gives = { λ bytes entry. entry ≡ entry_at bytes 0 };

    fn from(bytes: [u8; 3]) -> Entry {
        let [red, green, blue] = bytes;
        Entry { red, green, blue }
    }
}

// Each byte is its channel's value.
impl From<Entry> for Colour {
    ghost from_gives = { λ entry colour. colour ≡ tone_of entry };

    fn from(entry: Entry) -> Colour {
        Colour {
            red: Grey::from(entry.red),
            green: Grey::from(entry.green),
            blue: Grey::from(entry.blue),
        }
    }
}
