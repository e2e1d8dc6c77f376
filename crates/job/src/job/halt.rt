// Halt: the record of a job.
ghost use Rattle.std.specs.Prelude.{◌≡◌};
ghost use Rattle.model.specs.Calls.{wrote};
ghost use Rattle.model.specs.Steps.{halt_on};
ghost use Rattle.job.specs.Answers.{counted};
ghost use Rattle.job.specs.Meaning.{meant, band};

use crate::bit_map::codes_start;
use crate::job::Job;
use crate::size_bytes::size_bytes;
use crate::writing::{count_fixed, put_codes};
use bits::{Fixed, pack_row};
use plan::Plan;
use quantiser::Quantiser;
use refusal::Refusal;

impl<P: Plan, Q: Quantiser> Job<P, Q> {
    // Writes the record to the front of the output and answers its length. An output that is too short stays as it was.
    pub fn halt(
        &self,
        drawing: &[Q::Tone],
        amounts: &[Q::Tone],
        codes: &[u8],
        out: &mut [u8],
    ) -> Result<usize, Refusal>
        ensures { wrote (counted result) out.new ≡ halt_on (meant Q.Tone.Tone.algebra P.Plan.meaning Q.Quantiser.tables self.now drawing.now) (band codes.now amounts.now) out.old }
    {
        if !self.lengths_match(drawing, amounts, codes) {
            return Err(Refusal::BandLength);
        }
        let start = codes_start(codes.len());
        let total = start + count_fixed(codes);
        if out.len() < total {
            return Err(Refusal::OutputTooShort);
        }
        out[..4].copy_from_slice(&size_bytes(&self.size));
        pack_row::<Fixed>(codes, &mut out[4..start]);
        put_codes(codes, &mut out[start..total]);
        Ok(total)
    }
}
