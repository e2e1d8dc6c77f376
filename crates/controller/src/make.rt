// The job that the numbers of a call tell of.
ghost use Rattle.std.specs.Result.{MatchResult};
ghost use Rattle.refusal.specs.Numbers.{number_of};
ghost use Rattle.controller.specs.Exports.{Made, Barred};

use grid::Size;
use job::Job;
use plan::Knuth;
use quantiser::Threshold;
use refusal::Refusal;

// The job of a size, Knuth's plan and a threshold; 1 for a size outside the limits. The exports match on it, since where there is no job `and_then`
// ensures nothing of the bands and the output that its closure would borrow, and they promise that those stay; Tally is written as the others are.
pub(crate) fn make(
    rows: usize,
    columns: usize,
    least: i32,
) -> Result<Job<Knuth, Threshold>, Refusal>
    ensures { MatchResult result (λ j. Made rows columns least j) (λ e. Barred rows columns (number_of e)) }
{
    let size = Size::new(rows, columns)?;
    Ok(Job::new(size, Knuth, Threshold { least }))
}
