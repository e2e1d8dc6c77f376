// Colour: three channels, each treated alone. Each operation stands channel by channel, as a pair's does half by half: one function for
// all of them would take the operation as a closure, whose contract is longer than the lines that it saves.
ghost use Rattle.tone.specs.Colour.{colour_algebra};
ghost use Rattle.std.proofs.Common.{rules};
ghost use Rattle.tone.specs.GreyLaws.{grey_lawful};

use crate::grey::Grey;
use crate::tone::Tone;

#[derive(Clone, Copy, PartialEq, Eq, Debug)]
pub struct Colour {
    pub red: Grey,
    pub green: Grey,
    pub blue: Grey,
}

impl Tone for Colour {
    ghost algebra = { colour_algebra };

    ghost lawful = { let g = grey_lawful in Prim.search (rules, g) };

    fn zero() -> Colour {
        Colour {
            red: Grey::zero(),
            green: Grey::zero(),
            blue: Grey::zero(),
        }
    }

    fn sum(self, other: Colour) -> Colour {
        Colour {
            red: self.red.sum(other.red),
            green: self.green.sum(other.green),
            blue: self.blue.sum(other.blue),
        }
    }

    fn difference(self, other: Colour) -> Colour {
        Colour {
            red: self.red.difference(other.red),
            green: self.green.difference(other.green),
            blue: self.blue.difference(other.blue),
        }
    }

    fn share(self, weight: u8, total: u8) -> Colour {
        Colour {
            red: self.red.share(weight, total),
            green: self.green.share(weight, total),
            blue: self.blue.share(weight, total),
        }
    }
}
