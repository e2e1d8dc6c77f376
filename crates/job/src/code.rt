// The codes of a code band. Each code but one is the choice of a quantiser, whose codes are below 255.

// The code of an open square.
pub const OPEN: u8 = 255;
