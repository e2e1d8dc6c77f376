// The refusals, and the number that stands for each wherever a refusal is told as a number.
ghost use Rattle.std.specs.Prelude.{◌≡◌};
ghost use Rattle.refusal.specs.Numbers.{number_of};

#[derive(Clone, Copy, PartialEq, Eq, Debug)]
pub enum Refusal {
    // A drawing has not 1 to 4,096 rows, 1 to 4,096 columns and at most 1,048,576 squares.
    SizeOutsideLimits = 1,
    // A band is not as long as the drawing has squares.
    BandLength = 2,
    // A place lies outside the drawing.
    OutsideDrawing = 3,
    // A square is fixed already.
    SquareFixed = 4,
    // A neighbour of lower rank is open.
    LowerNeighbourOpen = 5,
    // An output is too short for what is to be written.
    OutputTooShort = 6,
    // A record has another size, a spare bit standing or another length than is due.
    RecordMalformed = 7,
    // A standing square of a record has a lower neighbour that does not stand.
    LowerNeighbourMissing = 8,
    // A code of a record is not the definition's.
    WrongCode = 9,
    // A square is open, where only fixed ones can be written.
    SquareOpen = 10,
    // A square has a code above 1, which a bit cannot hold.
    CodeAboveOne = 11,
    // A file does not begin with P2 and a separator.
    NotPlainPgm = 12,
    // A number is missing, malformed or above 65,535.
    NotANumber = 13,
    // A sample is above the greatest one, or the greatest one is outside 1 to 255.
    SampleOutsideRange = 14,
    // A period, an order or a byte count is outside its limits.
    OutsideLimits = 16,
    // Two squares that touch have equal ranks.
    TouchingEqualRanks = 17,
    // A palette has not 1 to 16 colours of three bytes.
    PaletteLength = 18,
    // Side by side, the product of the counts is above 254.
    TooManyCodes = 19,
}

impl Refusal {
    // The refusal as a number; 0 is none's, and stands for acceptance.
    pub fn number(self) -> u8
        ensures { result ≡ number_of self }
    {
        self as u8
    }
}
