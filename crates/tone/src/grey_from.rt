// A grey of a byte, such as a sample or a palette's channel.
ghost use Rattle.std.specs.Prelude.{◌≡◌, pos};
ghost use Rattle.tone.specs.Grey.{wrap};

use crate::grey::Grey;

// The byte is the channel's value.
impl From<u8> for Grey {
    ghost from_gives = { λ byte grey. grey ≡ wrap (pos byte) };

    fn from(byte: u8) -> Grey {
        Grey {
            value: i32::from(byte),
        }
    }
}
