// What lies next to a square in one direction: a neighbour of lower rank, one of higher rank, or none.
#[derive(Clone, Copy, PartialEq, Eq, Debug)]
pub enum Kind {
    Neither,
    Lower,
    Higher,
}
