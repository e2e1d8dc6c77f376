// A refusal as the programs print it.
use crate::refusal::Refusal;
use std::error::Error;
use std::fmt;

// The number and what was wrong, as one line says them.
impl fmt::Display for Refusal {
    fn fmt<W: fmt::Write>(&self, f: &mut fmt::Formatter<W>) -> fmt::Result {
        let number = self.number();
        let reason = self.reason();
        write!(f, "refusal {number}: {reason}")
    }
}

impl Error for Refusal {}
