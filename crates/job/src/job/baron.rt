// Barons: squares with no higher neighbour inside the drawing.
ghost use Rattle.std.specs.Prelude.{◌≡◌, not, ◌&&◌, ◌==◌};
ghost use Rattle.grid.specs.Squares.{Inside};
ghost use Rattle.diffusion.specs.Neighbourhoods.{baron};
ghost use Rattle.job.specs.Meaning.{squares_of};

use crate::code::OPEN;
use crate::job::Job;
use grid::Square;
use plan::Plan;
use quantiser::Quantiser;

impl<P: Plan, Q: Quantiser> Job<P, Q> {
    // Whether no neighbour is higher, so that nothing takes the square's error.
    fn is_baron(&self, square: Square) -> bool
        requires { Inside self.now.size square }
        ensures { result ≡ baron (squares_of P.Plan.meaning self.now) square.place }
    {
        self.pattern(square).last.is_none()
    }

    // Whether a square with this code is fixed and a baron, so that its error is lost.
    pub(crate) fn is_lost(&self, code: u8, square: Square) -> bool
        requires { Inside self.now.size square }
        ensures { result ≡ (not (code == 255) && baron (squares_of P.Plan.meaning self.now) square.place) }
    {
        code != OPEN && self.is_baron(square)
    }
}
