// Fix: one square, by its row and column.
ghost use Rattle.std.specs.Prelude.{◌≡◌, ◌+◌, ◌*◌, ◌<◌, ◌≤◌, length};
ghost use Rattle.grid.specs.Squares.{Inside};
ghost use Rattle.model.specs.Calls.{told};
ghost use Rattle.model.specs.Steps.{fix_on};
ghost use Rattle.job.specs.Answers.{coded};
ghost use Rattle.job.specs.Meaning.{squares_of, meant, setting_by, band};
ghost use Rattle.job.specs.Patterns.{PatternOf};
ghost use Rattle.job.specs.Progress.{progress, taken};
ghost use Rattle.job.specs.Single.{attempt};

use crate::code::OPEN;
use crate::job::Job;
use crate::pattern::Pattern;
use grid::Square;
use plan::Plan;
use quantiser::Quantiser;
use refusal::Refusal;

impl<P: Plan, Q: Quantiser> Job<P, Q> {
    // Fixes the square at a place, whose pattern is told, if it is open, and answers how many were fixed: 1 or 0. Its neighbours are not asked:
    // Fix has asked them before, and Finish need not.
    // A count and no bool, since a pass adds it up.
    pub(crate) fn take(
        &self,
        amounts: &mut [Q::Tone],
        codes: &mut [u8],
        place: usize,
        pattern: &Pattern,
    ) -> usize
        requires amounts { length amounts.old ≡ self.now.size.rows * self.now.size.columns }
        requires codes { length codes.old ≡ self.now.size.rows * self.now.size.columns }
        requires pattern { PatternOf (squares_of P.Plan.meaning self.now) place pattern.now }
        ensures few { result ≤ 1 }
        ensures after { progress result (band codes.new amounts.new) ≡ taken (setting_by Q.Tone.Tone.algebra P.Plan.meaning Q.Quantiser.tables self.now) place (band codes.old amounts.old) }
    {
        if codes[place] != OPEN {
            return 0;
        }
        codes[place] = self.quantise(amounts, place, pattern);
        1
    }

    // Fixes the square at a place, whose pattern is told, on bands of the right length: 4 where it is fixed, 5 where a lower neighbour is open.
    pub(crate) fn settle(
        &self,
        amounts: &mut [Q::Tone],
        codes: &mut [u8],
        place: usize,
        pattern: &Pattern,
    ) -> Result<u8, Refusal>
        requires amounts { length amounts.old ≡ self.now.size.rows * self.now.size.columns }
        requires codes { length codes.old ≡ self.now.size.rows * self.now.size.columns }
        requires pattern { PatternOf (squares_of P.Plan.meaning self.now) place pattern.now }
        ensures { told (coded result) (band codes.new amounts.new) ≡ attempt (setting_by Q.Tone.Tone.algebra P.Plan.meaning Q.Quantiser.tables self.now) place (band codes.old amounts.old) }
    {
        if codes[place] != OPEN {
            return Err(Refusal::SquareFixed);
        }
        if !self.is_ready(|at| codes[at] != OPEN, place, pattern) {
            return Err(Refusal::LowerNeighbourOpen);
        }
        let _ = self.take(amounts, codes, place, pattern);
        Ok(codes[place])
    }

    // The same for a square, whose pattern is gathered.
    pub(crate) fn fix_square(
        &self,
        amounts: &mut [Q::Tone],
        codes: &mut [u8],
        square: Square,
    ) -> Result<u8, Refusal>
        requires square { Inside self.now.size square }
        requires amounts { length amounts.old ≡ self.now.size.rows * self.now.size.columns }
        requires codes { length codes.old ≡ self.now.size.rows * self.now.size.columns }
        ensures { told (coded result) (band codes.new amounts.new) ≡ attempt (setting_by Q.Tone.Tone.algebra P.Plan.meaning Q.Quantiser.tables self.now) square.place (band codes.old amounts.old) }
    {
        let pattern = self.pattern(square);
        self.settle(amounts, codes, square.place, &pattern)
    }

    // Fixes the square at a row and a column: 2 for the bands, 3 outside the drawing, 4 where it is fixed, 5 where a lower neighbour is open.
    pub fn fix(
        &self,
        drawing: &[Q::Tone],
        amounts: &mut [Q::Tone],
        codes: &mut [u8],
        row: usize,
        column: usize,
    ) -> Result<u8, Refusal>
        ensures { told (coded result) (band codes.new amounts.new) ≡ fix_on (meant Q.Tone.Tone.algebra P.Plan.meaning Q.Quantiser.tables self.now drawing.now) row column (band codes.old amounts.old) }
    {
        if !self.lengths_match(drawing, amounts, codes) {
            return Err(Refusal::BandLength);
        }
        let square = self
            .size
            .square(row, column)
            .ok_or(Refusal::OutsideDrawing)?;
        self.fix_square(amounts, codes, square)
    }
}
