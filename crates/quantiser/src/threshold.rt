// Grey tones by a threshold: code 1, net, from the threshold up, and code 0, clothed, below it.
ghost use Rattle.quantiser.specs.Threshold.{by_threshold};
ghost use Rattle.std.proofs.Common.{rules};

use crate::quantiser::Quantiser;
use tone::{Grey, Tone};

#[derive(Clone, Copy)]
pub struct Threshold {
    pub least: i32,
}

impl Quantiser for Threshold {
    type Tone = Grey;

    ghost tables = { by_threshold };

    ghost sound = { Prim.search rules };

    fn count(&self) -> u8 {
        2
    }

    fn choose(&self, tone: Grey) -> u8 {
        u8::from(tone.value >= self.least)
    }

    fn output(&self, code: u8) -> Grey {
        if code == 1 {
            Grey::from(255)
        } else {
            Grey::zero()
        }
    }
}
