// Why a file was refused, and at which of its bytes.
ghost use Rattle.std.specs.Prelude.{◌≡◌};
ghost use Rattle.netpbm.specs.declared.fault.Fault.{Fault};

use refusal::Refusal;

// The offset is that of the number at fault, or the input's length where a number is missing; it is 0 for the refusals that are
// about no number of the file.
#[derive(Clone, Copy, PartialEq, Eq, Debug)]
pub struct Fault {
    pub refusal: Refusal,
    pub offset: usize,
}

// A refusal that is about no number of the file.
impl From<Refusal> for Fault {
    ghost from_gives = { λ refusal fault. fault ≡ record { refusal = refusal; offset = 0 } };

    fn from(refusal: Refusal) -> Fault {
        Fault { refusal, offset: 0 }
    }
}
