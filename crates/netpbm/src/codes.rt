// The codes that a raster can hold.
ghost use Rattle.std.specs.Prelude.{◌≡◌, MatchResult};
ghost use Rattle.refusal.specs.Numbers.{number_of};
ghost use Rattle.netpbm.specs.Pbm.{codes_refusal};

use refusal::Refusal;

// Refuses by the first code that a raster cannot hold, any but 0 and 1.
pub(crate) fn check_codes(codes: &[u8]) -> Result<(), Refusal>
    ensures { MatchResult result (λ _. codes_refusal codes.now ≡ 0) (λ e. number_of e ≡ codes_refusal codes.now) }
{
    match codes.iter().find(|code| **code > 1) {
        None => Ok(()),
        Some(255) => Err(Refusal::SquareOpen),
        Some(_) => Err(Refusal::CodeAboveOne),
    }
}
