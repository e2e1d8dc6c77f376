// The codes of a record in a code band.
ghost use Rattle.std.specs.Prelude.{◌≡◌, ◌*◌, length, MatchResult};
ghost use Rattle.refusal.specs.declared.refusal.Refusal.TheVariants.{WrongCode};
ghost use Rattle.model.specs.Replays.{codes_in};
ghost use Rattle.job.specs.Coded.{EachCoded};

use crate::code::OPEN;
use crate::record::Record;
use refusal::Refusal;

// Writes a record's codes, and 255 for each square that does not stand; 9 at the first standing square with the code 255, which is no
// square's code.
pub(crate) fn write_codes(saved: &Record, codes: &mut [u8]) -> Result<(), Refusal>
    requires { length codes.old ≡ saved.now.bits.size.rows * saved.now.bits.size.columns }
    ensures { MatchResult result
        (λ _. EachCoded (length codes.old) saved.now.bits.bytes.now × (codes.new ≡ codes_in (length codes.old) saved.now.bits.bytes.now))
        (λ e. (e ≡ WrongCode) × ¬ EachCoded (length codes.old) saved.now.bits.bytes.now) }
{
    let mut given = saved.codes().iter();
    for (place, code) in codes.iter_mut().enumerate() {
        if saved.is_standing(place) {
            // There are as many codes as squares that stand.
            let next = *given.next().unwrap();
            if next == OPEN {
                return Err(Refusal::WrongCode);
            }
            *code = next;
        } else {
            *code = OPEN;
        }
    }
    Ok(())
}
