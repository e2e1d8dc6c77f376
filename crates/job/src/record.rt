// A record that has been read: bytes whose form was judged once, so that what follows need not ask again.
ghost use Rattle.std.specs.Prelude.{◌≡◌, ◌+◌, ◌*◌, ◌<◌, true, false, length, drop, MatchResult};
ghost use Rattle.refusal.specs.declared.refusal.Refusal.TheVariants.{RecordMalformed};
ghost use Rattle.bits.specs.Bits.{bytes_for};
ghost use Rattle.model.specs.Records.{stands, stand_below};
ghost use Rattle.job.specs.Formed.{formed};

use crate::bit_map::{BitMap, codes_start};
use grid::Size;
use refusal::Refusal;

// The bits of a record that is well formed for their size.
// Its size is its own; that it is the job's is asked where it matters, since a record knows no job.
#[derive(Clone, Copy)]
pub struct Record<'a> {
    pub bits: BitMap<'a>,
    ghost well_formed: { formed bits.size.rows bits.size.columns bits.bytes.now ≡ true },
}

impl<'a> Record<'a> {
    // The record of a size in these bytes; 7 where they tell another size, have a spare bit that stands, or are not as long as is due. No
    // byte is read before it is known to be there.
    pub fn parse(bytes: &'a [u8], size: &Size) -> Result<Record<'a>, Refusal>
        ensures { MatchResult result
            (λ r. (r.bits.bytes.now ≡ bytes.now) × (r.bits.size ≡ size.now))
            (λ e. (e ≡ RecordMalformed) × (formed size.now.rows size.now.columns bytes.now ≡ false)) }
    {
        let Some(bits) = BitMap::new(bytes, size) else {
            return Err(Refusal::RecordMalformed);
        };
        if bits.tells_size()
            && bits.is_spare_clear()
            && bytes.len() == codes_start(size.squares()) + bits.count_standing()
        {
            Ok(Record { bits })
        } else {
            Err(Refusal::RecordMalformed)
        }
    }

    // Whether the bit of a square stands.
    pub fn is_standing(&self, place: usize) -> bool
        requires { place < self.now.bits.size.rows * self.now.bits.size.columns }
        ensures { result ≡ stands self.now.bits.bytes.now place }
    {
        self.bits.is_standing(place)
    }

    // The codes behind the map, one for each square that stands, in the order of the squares.
    pub fn codes(&self) -> &'a [u8]
        ensures codes { result.now ≡ drop (4 + bytes_for (self.now.bits.size.rows * self.now.bits.size.columns)) self.now.bits.bytes.now }
        ensures due { length result.now ≡ stand_below self.now.bits.bytes.now (self.now.bits.size.rows * self.now.bits.size.columns) }
    {
        &self.bits.bytes[codes_start(self.bits.size.squares())..]
    }
}
