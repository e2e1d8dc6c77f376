// Why there is no draft.
ghost use Rattle.std.specs.Prelude.{◌≡◌};
ghost use Rattle.drafting.specs.declared.fault.DraftFault.TheVariants.{Unread};

use netpbm::Fault;

#[derive(Clone, Copy, PartialEq, Eq, Debug)]
pub enum DraftFault {
    // The input has more than 65,536 bytes.
    InputTooLong,
    // The input is no plain PGM of at most 4,096 squares: Read's refusal, and the offset that it tells.
    Unread(Fault),
    // The draft is longer than the output.
    OutputTooShort,
}

// What Read refuses is told as it is.
impl From<Fault> for DraftFault {
    ghost from_gives = { λ fault told. told ≡ Unread fault };

    fn from(fault: Fault) -> DraftFault {
        DraftFault::Unread(fault)
    }
}
