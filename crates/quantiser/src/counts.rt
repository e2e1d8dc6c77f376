// The counts of two quantisers whose codes go into one byte.
ghost use Rattle.std.specs.Prelude.{◌*◌, ◌≤◌};

#[derive(Clone, Copy)]
pub struct Counts {
    pub first: u8,
    pub second: u8,
    ghost some: { 1 ≤ first * second },
    ghost few: { first * second ≤ 254 },
}
