// A job from Open to Finish, which neither call can refuse on bands of the right length.
ghost use Rattle.std.specs.Prelude.{◌≡◌, ◌*◌, length};
ghost use Rattle.drafting.specs.Drafts.{finished};

use grid::Size;
use job::{Job, open_bands};
use plan::Knuth;
use quantiser::Threshold;
use tone::Grey;

// Tones from this one up are net, and those below it clothed.
const LEAST_NET: i32 = 128;

// Leaves in the codes those of the finished draft. What the codes and the amounts held before is never read.
pub(crate) fn finish_draft(size: &Size, drawing: &[Grey], amounts: &mut [Grey], codes: &mut [u8])
    requires drawing { length drawing.now ≡ size.now.rows * size.now.columns }
    requires amounts { length amounts.old ≡ size.now.rows * size.now.columns }
    requires codes { length codes.old ≡ size.now.rows * size.now.columns }
    ensures { codes.new ≡ finished size.now.rows size.now.columns drawing.now }
{
    let threshold = Threshold { least: LEAST_NET };
    let job = Job::new(*size, Knuth, threshold);
    let _ = open_bands(size.rows, size.columns, drawing, amounts, codes);
    let _ = job.finish(drawing, amounts, codes);
}
