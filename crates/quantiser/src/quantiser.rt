// What a quantiser is: it chooses a code for each tone of one kind, and tells the tone that a code puts out.
ghost use Rattle.std.specs.Prelude.{◌≡◌};
ghost use Rattle.quantiser.specs.Tables.{Tables, Sound};

use tone::Tone;

pub trait Quantiser {
    // The kind of tone that it is for.
    type Tone: Tone;

    // What the three questions below answer. Asking changes nothing, and the choice depends on the tone alone.
    ghost tables: { Self → Tables Self.Tone };

    // How many codes there are, 1 to 254.
    fn count(&self) -> u8
        ensures { result ≡ (tables self.now).count };

    // The code for a tone, below the count.
    fn choose(&self, tone: Self::Tone) -> u8
        ensures { result ≡ (tables self.now).choice tone };

    // The tone that a code puts out; zero for a code that the quantiser lacks.
    fn output(&self, code: u8) -> Self::Tone
        ensures { result ≡ (tables self.now).output code };

    ghost sound: { (q : Self) → Sound Self.Tone.algebra (tables q) };
}
