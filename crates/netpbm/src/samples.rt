// The samples of a plain PGM, and the tones that they stand for.
ghost use Rattle.std.specs.Prelude.{◌≡◌, ◌+◌, ◌*◌, ◌≤◌, length, Some, None, MatchResult};
ghost use Rattle.netpbm.specs.Words.{after};
ghost use Rattle.netpbm.specs.Pgm.{told_by, tone_of, sample_fault, SampleRead, first_fault, sound, greatest_in, filled};

use crate::fault::Fault;
use crate::head::Head;
use crate::number::Reader;

// A sample, and the offset behind it.
#[derive(Clone, Copy)]
pub struct Sample {
    pub value: u8,
    pub end: usize,
}

// The tone of a sample: the sample as it stands, whatever the greatest one is.
fn tone_of(sample: u8) -> u8
    ensures { result ≡ tone_of sample }
{
    sample
}

// The next sample. It refuses with 13 as any number is refused, then with 14 a sample above the greatest.
fn read_sample(reader: &Reader<'_>, greatest: u8) -> Result<Sample, Fault>
    ensures { MatchResult result (λ s. SampleRead reader.now.input.now greatest reader.now.position s.value s.end) (λ f. sample_fault reader.now.input.now greatest reader.now.position ≡ Some (told_by f)) }
{
    let number = reader.next_number()?;
    Ok(Sample {
        value: number.within(0, greatest)?,
        end: number.end,
    })
}

// Reads a sample for each square into the front of the band, up to the first one at fault, and answers the offset behind the last.
pub(crate) fn read_samples(reader: &Reader<'_>, head: Head, band: &mut [u8]) -> Result<usize, Fault>
    requires position { reader.now.position ≡ after reader.now.input.now 3 }
    requires greatest { head.greatest ≡ greatest_in reader.now.input.now }
    requires room { head.size.rows * head.size.columns ≤ length band.old }
    ensures fault { let count = head.size.rows * head.size.columns in MatchResult result (λ end. (first_fault reader.now.input.now count ≡ None) × (end ≡ after reader.now.input.now (3 + count))) (λ f. first_fault reader.now.input.now count ≡ Some (told_by f)) }
    ensures band { band.new ≡ filled reader.now.input.now (sound reader.now.input.now (head.size.rows * head.size.columns)) band.old }
{
    let mut at = reader.position;
    for tone in band[..head.size.squares()].iter_mut() {
        let sample = read_sample(&reader.at(at), head.greatest)?;
        *tone = tone_of(sample.value);
        at = sample.end;
    }
    Ok(at)
}
