// The words of a plain PGM, and the numbers that they spell.
ghost use Rattle.std.specs.Prelude.{◌≡◌, ◌+◌, ◌≤◌, ◌&&◌, false, length, drop, Some, None, MatchResult, MatchOption, IfSome, nat_le};
ghost use Rattle.netpbm.specs.Words.{start, capped, spelled, word_from, Spells};
ghost use Rattle.netpbm.specs.Pgm.{told, told_by, number_fault};

use crate::digits::append_digit;
use crate::fault::Fault;
use crate::separator::is_separator;
use refusal::Refusal;

// A number of the file, the offset of its first digit, and the offset behind its last.
#[derive(Clone, Copy)]
pub struct Number {
    pub value: u16,
    pub offset: usize,
    pub end: usize,
}

// The bytes from an offset on; none behind the end.
fn rest(input: &[u8], at: usize) -> &[u8]
    ensures { result.now ≡ drop at input.now }
{
    input.get(at..).unwrap_or(&[])
}

// Where the next word begins, behind the separators.
fn start(input: &[u8], at: usize) -> usize
    ensures { result ≡ start input.now at }
{
    at + rest(input, at)
        .iter()
        .take_while(|byte| is_separator(**byte))
        .count()
}

// The number that a word spells, and how many bytes that takes.
#[derive(Clone, Copy)]
pub struct Spelling {
    pub value: u16,
    pub length: usize,
}

// The number that the word at the front of the bytes spells; none where it has another byte than digits or is above 65,535. It stops as soon as one
// of these is seen, so that what follows costs nothing, and goes over each byte once.
fn spelled(bytes: &[u8]) -> Option<Spelling>
    ensures value { MatchOption result (capped (spelled 0 (word_from bytes.now)) ≡ None) (λ s. (capped (spelled 0 (word_from bytes.now)) ≡ Some s.value) × (s.length ≡ length (word_from bytes.now))) }
    ensures bound { IfSome result (λ s. s.length ≤ length bytes.now) }
{
    let mut value = 0;
    for (length, byte) in bytes.iter().enumerate() {
        if is_separator(*byte) {
            return Some(Spelling { value, length });
        }
        value = append_digit(value, *byte)?;
    }
    Some(Spelling {
        value,
        length: bytes.len(),
    })
}

// The input, and how many of its bytes have been read. Magic, head and samples are read through it, one behind the other. It is never moved along,
// but made anew at another position, so that no contract has to say that the input stays as it was.
#[derive(Clone, Copy)]
pub struct Reader<'a> {
    pub input: &'a [u8],
    pub position: usize,
}

impl<'a> Reader<'a> {
    // The reader of the same input at another position.
    pub(crate) fn at(&self, position: usize) -> Reader<'a>
        ensures input { result.input.now ≡ self.now.input.now }
        ensures position { result.position ≡ position }
    {
        Reader {
            input: self.input,
            position,
        }
    }

    // The next number. It refuses with 13 one that is missing, malformed or above 65,535, and tells where it begins or should.
    pub(crate) fn next_number(&self) -> Result<Number, Fault>
        ensures { MatchResult result (λ n. Spells self.now.input.now self.now.position n.value n.offset n.end) (λ f. number_fault self.now.input.now self.now.position ≡ Some (told_by f)) }
    {
        let offset = start(self.input, self.position);
        let fault = Fault {
            refusal: Refusal::NotANumber,
            offset,
        };
        if offset >= self.input.len() {
            return Err(fault);
        }
        let Spelling { value, length } = spelled(rest(self.input, offset)).ok_or(fault)?;
        let end = offset + length;
        Ok(Number { value, offset, end })
    }
}

impl Number {
    // The number as a byte. It refuses with 14, at the number's offset, one outside the range.
    pub(crate) fn within(self, least: u8, most: u8) -> Result<u8, Fault>
        ensures { MatchResult result (λ v. (v ≡ self.value) × (least ≤ v) × (v ≤ most)) (λ f. (told_by f ≡ told 14 self.offset) × ((nat_le least self.value && nat_le self.value most) ≡ false)) }
    {
        match u8::try_from(self.value) {
            Ok(byte) if (least..=most).contains(&byte) => Ok(byte),
            _ => Err(Fault {
                refusal: Refusal::SampleOutsideRange,
                offset: self.offset,
            }),
        }
    }
}
