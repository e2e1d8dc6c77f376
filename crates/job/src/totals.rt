// The four totals of a job.
// What the drawing held is what was put out, what was lost and what is still open.
#[derive(Clone, Copy)]
pub struct Totals<T> {
    // the tones of the drawing
    pub drawing: T,
    // the outputs of the fixed squares
    pub outputs: T,
    // the errors of the fixed barons, which have no higher neighbour to take them
    pub losses: T,
    // the amounts of the open squares
    pub amounts: T,
}
