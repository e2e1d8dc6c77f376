// The eight directions in which a square may have a neighbour, in their order: clockwise from N, the row above.
ghost use Rattle.std.specs.Prelude.{◌≡◌};
ghost use Rattle.grid.specs.Directions.{number_of, weight, down, across};

// Each stands with its place in the order, from 0.
#[derive(Clone, Copy, PartialEq, Eq, Debug)]
pub enum Direction {
    N = 0,
    Ne = 1,
    E = 2,
    Se = 3,
    S = 4,
    Sw = 5,
    W = 6,
    Nw = 7,
}

// What a direction does to a row or to a column: one less, the same, one more.
#[derive(Clone, Copy, PartialEq, Eq, Debug)]
pub enum Step {
    Back,
    Stay,
    Ahead,
}

impl Direction {
    // All eight, in their order.
    pub const ALL: [Direction; 8] = [
        Direction::N,
        Direction::Ne,
        Direction::E,
        Direction::Se,
        Direction::S,
        Direction::Sw,
        Direction::W,
        Direction::Nw,
    ];

    // Where the direction stands in the order, from 0.
    pub fn number(self) -> u8
        ensures { result ≡ number_of self }
    {
        self as u8
    }

    // 2 by a side, 1 by a corner.
    pub fn weight(self) -> u8
        ensures { result ≡ weight (number_of self) }
    {
        match self {
            Direction::N | Direction::E | Direction::S | Direction::W => 2,
            Direction::Ne | Direction::Se | Direction::Sw | Direction::Nw => 1,
        }
    }

    // From one row to another.
    pub fn down(self) -> Step
        ensures { result ≡ down (number_of self) }
    {
        match self {
            Direction::Nw | Direction::N | Direction::Ne => Step::Back,
            Direction::W | Direction::E => Step::Stay,
            Direction::Sw | Direction::S | Direction::Se => Step::Ahead,
        }
    }

    // From one column to another.
    pub fn across(self) -> Step
        ensures { result ≡ across (number_of self) }
    {
        match self {
            Direction::Nw | Direction::W | Direction::Sw => Step::Back,
            Direction::N | Direction::S => Step::Stay,
            Direction::Ne | Direction::E | Direction::Se => Step::Ahead,
        }
    }
}
