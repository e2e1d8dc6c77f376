// From a number back to the refusal.
ghost use Rattle.std.specs.Prelude.{◌≡◌, MatchResult};
ghost use Rattle.refusal.specs.Numbers.{number_of};
ghost use Rattle.refusal.specs.declared.refusal.Refusal.{Refusal as Case};

use crate::refusal::Refusal;

// A number that no refusal has.
#[derive(Clone, Copy, PartialEq, Eq, Debug)]
pub struct UnknownNumber(pub u8);

impl TryFrom<u8> for Refusal {
    type Error = UnknownNumber;

    // The refusal with this number; the number back only where no refusal has it.
    ghost try_from_gives = { λ number r. MatchResult r (λ refusal. number_of refusal ≡ number) (λ e. (e.0 ≡ number) × ((refusal : Case) → number_of refusal ≡ number → ⊥)) };

    fn try_from(number: u8) -> Result<Refusal, UnknownNumber> {
        match number {
            1 => Ok(Refusal::SizeOutsideLimits),
            2 => Ok(Refusal::BandLength),
            3 => Ok(Refusal::OutsideDrawing),
            4 => Ok(Refusal::SquareFixed),
            5 => Ok(Refusal::LowerNeighbourOpen),
            6 => Ok(Refusal::OutputTooShort),
            7 => Ok(Refusal::RecordMalformed),
            8 => Ok(Refusal::LowerNeighbourMissing),
            9 => Ok(Refusal::WrongCode),
            10 => Ok(Refusal::SquareOpen),
            11 => Ok(Refusal::CodeAboveOne),
            12 => Ok(Refusal::NotPlainPgm),
            13 => Ok(Refusal::NotANumber),
            14 => Ok(Refusal::SampleOutsideRange),
            16 => Ok(Refusal::OutsideLimits),
            17 => Ok(Refusal::TouchingEqualRanks),
            18 => Ok(Refusal::PaletteLength),
            19 => Ok(Refusal::TooManyCodes),
            _ => Err(UnknownNumber(number)),
        }
    }
}
