// Grey is a tone whose sums and differences wrap at 32 bits.
ghost use Rattle.tone.specs.Grey.{grey_algebra};
ghost use Rattle.tone.specs.GreyLaws.{grey_lawful};

use crate::grey::Grey;
use crate::share::part;
use crate::tone::Tone;

impl Tone for Grey {
    ghost algebra = { grey_algebra };

    ghost lawful = { grey_lawful };

    fn zero() -> Grey {
        Grey { value: 0 }
    }

    fn sum(self, other: Grey) -> Grey {
        Grey {
            value: self.value.wrapping_add(other.value),
        }
    }

    fn difference(self, other: Grey) -> Grey {
        Grey {
            value: self.value.wrapping_sub(other.value),
        }
    }

    // Zero unless 1 ≤ weight < total ≤ 12.
    fn share(self, weight: u8, total: u8) -> Grey {
        if weight == 0 || weight >= total || total > 12 {
            return Grey::zero();
        }
        Grey {
            value: part(self.value, weight, total),
        }
    }
}
