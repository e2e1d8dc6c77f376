// A refusal in words, for programs that print one.
ghost use Rattle.std.specs.Prelude.{◌≡◌};
ghost use Rattle.refusal.specs.Reasons.{reason_of};

use crate::refusal::Refusal;

impl Refusal {
    // What was wrong, as the end of a printed line.
    pub fn reason(self) -> &'static str
        ensures { result.now ≡ reason_of self }
    {
        match self {
            Refusal::SizeOutsideLimits =>
                "a drawing has 1 to 4096 rows and columns and at most 1048576 squares",
            Refusal::BandLength => "a band is not as long as the drawing has squares",
            Refusal::OutsideDrawing => "a place lies outside the drawing",
            Refusal::SquareFixed => "the square is fixed already",
            Refusal::LowerNeighbourOpen => "a neighbour of lower rank is open",
            Refusal::OutputTooShort => "an output is too short for what is to be written",
            Refusal::RecordMalformed =>
                "the record has another size, a spare bit standing or a wrong length",
            Refusal::LowerNeighbourMissing =>
                "a standing square of the record has a lower neighbour that does not stand",
            Refusal::WrongCode => "a code of the record is not the one that the draft has",
            Refusal::SquareOpen => "a square is open",
            Refusal::CodeAboveOne => "a square has a code above 1",
            Refusal::NotPlainPgm => "a plain PGM begins with P2 and a space, tab, CR or LF",
            Refusal::NotANumber => "a number is missing, malformed or above 65535",
            Refusal::SampleOutsideRange =>
                "a sample is above the greatest one, or the greatest one is outside 1 to 255",
            Refusal::OutsideLimits => "a period, order or byte count is outside its limits",
            Refusal::TouchingEqualRanks => "two squares that touch have equal ranks",
            Refusal::PaletteLength => "a palette has 1 to 16 colours of three bytes each",
            Refusal::TooManyCodes => "two quantisers side by side have at most 254 codes",
        }
    }
}
