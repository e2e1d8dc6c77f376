// A job from its parts, for callers that keep the parts themselves and lend the bands of a job that was opened before.
ghost use Rattle.std.specs.Prelude.{◌≡◌};

use crate::job::Job;
use grid::Size;
use plan::Plan;
use quantiser::Quantiser;

impl<P: Plan, Q: Quantiser> Job<P, Q> {
    // The job of a size, a plan and a quantiser. No band is touched.
    pub fn new(size: Size, plan: P, quantiser: Q) -> Job<P, Q>
        ensures size { result.size ≡ size }
        ensures plan { result.plan ≡ plan }
        ensures quantiser { result.quantiser ≡ quantiser }
    {
        Job {
            size,
            plan,
            quantiser,
        }
    }
}
