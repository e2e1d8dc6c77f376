// Resume: the job that a record tells of, brought back in lent bands.
ghost use Rattle.std.specs.Prelude.{◌≡◌, ◌*◌, length};
ghost use Rattle.model.specs.Calls.{told};
ghost use Rattle.model.specs.Steps.{resume_on};
ghost use Rattle.job.specs.Answers.{resumed};
ghost use Rattle.job.specs.Meaning.{meant, setting_by, band};
ghost use Rattle.job.specs.Worked.{Reworked};

use crate::code::OPEN;
use crate::job::Job;
use crate::job::codes::write_codes;
use crate::record::Record;
use plan::Plan;
use quantiser::Quantiser;
use refusal::Refusal;

impl<P: Plan, Q: Quantiser> Job<P, Q> {
    // Writes the record's codes and works its squares again from the drawing; 9 at a code that is not the definition's, and the bands are
    // then of no use.
    fn rework(
        &self,
        drawing: &[Q::Tone],
        amounts: &mut [Q::Tone],
        codes: &mut [u8],
        saved: &Record,
    ) -> Result<(), Refusal>
        requires drawing { length drawing.now ≡ self.now.size.rows * self.now.size.columns }
        requires amounts { length amounts.old ≡ self.now.size.rows * self.now.size.columns }
        requires codes { length codes.old ≡ self.now.size.rows * self.now.size.columns }
        requires saved { saved.now.bits.size ≡ self.now.size }
        ensures { Reworked (setting_by Q.Tone.Tone.algebra P.Plan.meaning Q.Quantiser.tables self.now) (P.Plan.meaning self.now.plan).top drawing.now saved.now.bits.bytes.now result codes.new amounts.new }
    {
        amounts.copy_from_slice(drawing);
        write_codes(saved, codes)?;
        self.replay(amounts, codes)
    }

    // Brings back the job of a record: 2 for the bands, 7 for its form, 8 where a standing square has a lower neighbour that does not, and
    // 9 for a code that is not the definition's. What the bands held is not looked at; only 9 changes them without acceptance.
    pub fn resume(
        &self,
        drawing: &[Q::Tone],
        amounts: &mut [Q::Tone],
        codes: &mut [u8],
        saved: &[u8],
    ) -> Result<(), Refusal>
        ensures { told (resumed result) (band codes.new amounts.new) ≡ resume_on (meant Q.Tone.Tone.algebra P.Plan.meaning Q.Quantiser.tables self.now drawing.now) saved.now (band codes.old amounts.old) }
    {
        if !self.lengths_match(drawing, amounts, codes) {
            return Err(Refusal::BandLength);
        }
        let record = Record::parse(saved, &self.size)?;
        if !self.is_closed(&record) {
            return Err(Refusal::LowerNeighbourMissing);
        }
        if let Err(refusal) = self.rework(drawing, amounts, codes, &record) {
            codes.fill(OPEN);
            amounts.copy_from_slice(drawing);
            return Err(refusal);
        }
        Ok(())
    }
}
