// The place next to a square, from the square's own place.
ghost use Rattle.std.specs.Prelude.{◌≡◌, ◌≤◌};
ghost use Rattle.grid.specs.Directions.{number_of};
ghost use Rattle.job.specs.Patterns.{beside};

use grid::Direction;

// The place in a direction of a drawing with so many columns. It stops at 0, which no neighbour's place needs.
pub fn place_beside(place: usize, columns: usize, direction: Direction) -> usize
    requires place { place ≤ 1048576 }
    requires columns { columns ≤ 4096 }
    ensures { result ≡ beside columns place (number_of direction) }
{
    match direction {
        Direction::N => place.saturating_sub(columns),
        Direction::Ne => place.saturating_sub(columns) + 1,
        Direction::E => place + 1,
        Direction::Se => place + columns + 1,
        Direction::S => place + columns,
        Direction::Sw => (place + columns).saturating_sub(1),
        Direction::W => place.saturating_sub(1),
        Direction::Nw => place.saturating_sub(columns + 1),
    }
}
