// The grey tones of a drawing, from the bytes of its samples.
ghost use Rattle.std.specs.Prelude.{◌≡◌, map, length};
ghost use Rattle.drafting.specs.Drafts.{grey};

use tone::Grey;

// Fills a drawing with the tones of as many bytes.
pub(crate) fn put_greys(bytes: &[u8], drawing: &mut [Grey])
    requires { length drawing.old ≡ length bytes.now }
    ensures { drawing.new ≡ map grey bytes.now }
{
    // By index for the bytes: behind a zip with `iter_mut` a proof knows no tone.
    for (i, grey) in drawing.iter_mut().enumerate() {
        *grey = Grey::from(bytes[i]);
    }
}
