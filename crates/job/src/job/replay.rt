// The squares that stand in a code band, worked again from the drawing: rank by rank, and each rank in reading order.
ghost use Rattle.std.specs.Prelude.{◌≡◌, suc, ◌*◌, length, Some, IfErr};
ghost use Rattle.refusal.specs.declared.refusal.Refusal.TheVariants.{WrongCode};
ghost use Rattle.grid.specs.Squares.{Inside};
ghost use Rattle.model.specs.Replays.{replay_at, replay_visit, replay_sweep, replay};
ghost use Rattle.job.specs.Meaning.{setting_by};
ghost use Rattle.job.specs.Worked.{kept_if};

use crate::code::OPEN;
use crate::job::Job;
use grid::Square;
use plan::Plan;
use quantiser::Quantiser;
use refusal::Refusal;

impl<P: Plan, Q: Quantiser> Job<P, Q> {
    // Works a standing square whose turn it is; 9 where another code is chosen than the one written.
    // Not inlined: one square in many is worked, and the loop over all would make room for a pattern at each.
    #[inline(never)]
    fn replay_standing(
        &self,
        amounts: &mut [Q::Tone],
        codes: &[u8],
        square: Square,
    ) -> Result<(), Refusal>
        requires square { Inside self.now.size square }
        requires amounts { length amounts.old ≡ self.now.size.rows * self.now.size.columns }
        requires codes { length codes.now ≡ self.now.size.rows * self.now.size.columns }
        ensures reason { IfErr result (λ e. e ≡ WrongCode) }
        ensures kept { kept_if result amounts.new ≡ replay_at (setting_by Q.Tone.Tone.algebra P.Plan.meaning Q.Quantiser.tables self.now) codes.now square.place amounts.old }
    {
        let written = codes[square.place];
        let pattern = self.pattern(square);
        if self.quantise(amounts, square.place, &pattern) != written {
            return Err(Refusal::WrongCode);
        }
        Ok(())
    }

    // Works a square if it stands and has the rank whose turn it is; 9 where another code is chosen than the one written.
    fn replay_square(
        &self,
        amounts: &mut [Q::Tone],
        codes: &[u8],
        square: Square,
        rank: u8,
    ) -> Result<(), Refusal>
        requires square { Inside self.now.size square }
        requires amounts { length amounts.old ≡ self.now.size.rows * self.now.size.columns }
        requires codes { length codes.now ≡ self.now.size.rows * self.now.size.columns }
        ensures reason { IfErr result (λ e. e ≡ WrongCode) }
        ensures kept { kept_if result amounts.new ≡ replay_visit (setting_by Q.Tone.Tone.algebra P.Plan.meaning Q.Quantiser.tables self.now) codes.now rank square.place (Some amounts.old) }
    {
        if codes[square.place] == OPEN {
            return Ok(());
        }
        if self.plan.rank(square.row, square.column) != rank {
            return Ok(());
        }
        // A square of its own is handed on, so that a loop over squares keeps theirs in registers.
        let Square { row, column, place } = square;
        self.replay_standing(amounts, codes, Square { row, column, place })
    }

    // Works the squares of a rank.
    fn replay_rank(&self, amounts: &mut [Q::Tone], codes: &[u8], rank: u8) -> Result<(), Refusal>
        requires amounts { length amounts.old ≡ self.now.size.rows * self.now.size.columns }
        requires codes { length codes.now ≡ self.now.size.rows * self.now.size.columns }
        ensures reason { IfErr result (λ e. e ≡ WrongCode) }
        ensures kept { kept_if result amounts.new ≡ replay_sweep (setting_by Q.Tone.Tone.algebra P.Plan.meaning Q.Quantiser.tables self.now) codes.now rank (Some amounts.old) (self.now.size.rows * self.now.size.columns) }
    {
        for square in self.size.in_reading_order() {
            self.replay_square(amounts, codes, square, rank)?;
        }
        Ok(())
    }

    // Works all squares that stand; 9 at the first code that is not the one written, and the amounts are then of no use.
    pub(crate) fn replay(&self, amounts: &mut [Q::Tone], codes: &[u8]) -> Result<(), Refusal>
        requires amounts { length amounts.old ≡ self.now.size.rows * self.now.size.columns }
        requires codes { length codes.now ≡ self.now.size.rows * self.now.size.columns }
        ensures reason { IfErr result (λ e. e ≡ WrongCode) }
        ensures kept { kept_if result amounts.new ≡ replay (setting_by Q.Tone.Tone.algebra P.Plan.meaning Q.Quantiser.tables self.now) codes.now (Some amounts.old) (suc (P.Plan.meaning self.now.plan).top) }
    {
        for rank in 0..=self.plan.top() {
            self.replay_rank(amounts, codes, rank)?;
        }
        Ok(())
    }
}
