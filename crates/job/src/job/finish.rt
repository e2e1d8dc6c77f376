// Finish: every square that is still open, rank by rank.
ghost use Rattle.std.specs.Prelude.{◌≡◌, ℕ, ◌+◌, ◌*◌, ◌%◌, ◌<◌, ◌≤◌, true, length, None, slice_index_or};
ghost use Rattle.model.specs.Calls.{told};
ghost use Rattle.model.specs.Steps.{finish_on};
ghost use Rattle.job.specs.Answers.{counted};
ghost use Rattle.job.specs.Meaning.{squares_of, meant, setting_by, band};
ghost use Rattle.job.specs.Patterns.{PatternOf};
ghost use Rattle.job.specs.Periods.{First, FirstAt, Lone, Between};
ghost use Rattle.job.specs.Progress.{progress, visited, passed_from, passed_below, swept_below, LowerStand};

use crate::job::Job;
use crate::pattern::Pattern;
use grid::Square;
use plan::Plan;
use quantiser::Quantiser;
use refusal::Refusal;
use std::array;

impl<P: Plan, Q: Quantiser> Job<P, Q> {
    // Fixes the square at a place, whose pattern is told, if it is open, and answers how many were fixed: 1 or 0. This is `take` with what a sweep
    // knows: the squares of lower rank are fixed, so that it does what the definition's visit does, which asks them.
    fn visit(
        &self,
        amounts: &mut [Q::Tone],
        codes: &mut [u8],
        place: usize,
        pattern: &Pattern,
    ) -> usize
        requires lower { LowerStand (squares_of P.Plan.meaning self.now) ((squares_of P.Plan.meaning self.now).rank place) codes.old }
        requires amounts { length amounts.old ≡ self.now.size.rows * self.now.size.columns }
        requires codes { length codes.old ≡ self.now.size.rows * self.now.size.columns }
        requires pattern { PatternOf (squares_of P.Plan.meaning self.now) place pattern.now }
        ensures few { result ≤ 1 }
        ensures after { progress result (band codes.new amounts.new) ≡ visited (setting_by Q.Tone.Tone.algebra P.Plan.meaning Q.Quantiser.tables self.now) ((squares_of P.Plan.meaning self.now).rank place) place (band codes.old amounts.old) }
    {
        self.take(amounts, codes, place, pattern)
    }

    // Fixes the ready squares of one rank in a row, column by column, and answers how many.
    fn scan_row(&self, amounts: &mut [Q::Tone], codes: &mut [u8], rank: u8, row: usize) -> usize
        requires row { row < self.now.size.rows }
        requires lower { LowerStand (squares_of P.Plan.meaning self.now) rank codes.old }
        requires amounts { length amounts.old ≡ self.now.size.rows * self.now.size.columns }
        requires codes { length codes.old ≡ self.now.size.rows * self.now.size.columns }
        ensures few { result ≤ self.now.size.columns }
        ensures after { progress result (band codes.new amounts.new) ≡ passed_from (setting_by Q.Tone.Tone.algebra P.Plan.meaning Q.Quantiser.tables self.now) rank (row * self.now.size.columns) self.now.size.columns (band codes.old amounts.old) }
    {
        let start = row * self.size.columns;
        let mut count = 0;
        for column in 0..self.size.columns {
            if self.plan.rank(row, column) == rank {
                let place = start + column;
                let pattern = self.pattern(Square { row, column, place });
                count += self.visit(amounts, codes, place, &pattern);
            }
        }
        count
    }

    // The first column of a row with a rank, if there is one. The ranks repeat, so that one period tells.
    fn first_column(&self, rank: u8, row: usize) -> Option<usize>
        ensures { First self.now.size.columns (P.Plan.meaning self.now.plan) rank row result }
    {
        let period = self.plan.column_period();
        (0..period.min(self.size.columns)).find(|column| self.plan.rank(row, *column) == rank)
    }

    // The same for each row of the first period: asked once for a rank, they serve every row.
    // An array for the longest period and no Vec, since nothing here allocates.
    fn first_columns(&self, rank: u8) -> [Option<usize>; 16]
        ensures full { length result ≡ 16 }
        ensures each { (row : ℕ) → row < (P.Plan.meaning self.now.plan).row_period → row < self.now.size.rows → First self.now.size.columns (P.Plan.meaning self.now.plan) rank row (slice_index_or result row None) }
    {
        let rows = self.plan.row_period().min(self.size.rows);
        array::from_fn(|row| {
            if row < rows {
                self.first_column(rank, row)
            } else {
                None
            }
        })
    }

    // Whether the first column of a row with a rank is the only one of its period.
    fn is_lone(&self, rank: u8, row: usize, first: usize) -> bool
        requires { FirstAt self.now.size.columns (P.Plan.meaning self.now.plan) rank row first }
        ensures { result ≡ true → Lone (P.Plan.meaning self.now.plan) rank row first }
    {
        (first + 1..self.plan.column_period()).all(|column| self.plan.rank(row, column) != rank)
    }

    // Whether the squares of a row from one column to another touch neither its left edge nor its right. Its top and bottom need not be asked for: a
    // row has them for all its squares or for none.
    fn is_between(&self, from: usize, to: usize) -> bool
        requires to { to < self.now.size.columns }
        ensures { result ≡ true → Between self.now.size.columns from to }
    {
        0 < from && to + 1 < self.size.columns
    }

    // Fixes the ready squares of a row whole periods from a column, and answers how many. Those between the two
    // ends of the row have one pattern, which is gathered once.
    fn stride_row(
        &self,
        amounts: &mut [Q::Tone],
        codes: &mut [u8],
        rank: u8,
        row: usize,
        first: usize,
    ) -> usize
        requires row { row < self.now.size.rows }
        requires first { first < self.now.size.columns }
        requires lone { Lone (P.Plan.meaning self.now.plan) rank row first }
        requires lower { LowerStand (squares_of P.Plan.meaning self.now) rank codes.old }
        requires amounts { length amounts.old ≡ self.now.size.rows * self.now.size.columns }
        requires codes { length codes.old ≡ self.now.size.rows * self.now.size.columns }
        ensures few { result ≤ self.now.size.columns }
        ensures after { progress result (band codes.new amounts.new) ≡ passed_from (setting_by Q.Tone.Tone.algebra P.Plan.meaning Q.Quantiser.tables self.now) rank (row * self.now.size.columns) self.now.size.columns (band codes.old amounts.old) }
    {
        let start = row * self.size.columns;
        let mut count = 0;
        let mut known = first;
        let mut pattern = self.pattern(Square {
            row,
            column: first,
            place: start + first,
        });
        for column in (first..self.size.columns).step_by(self.plan.column_period()) {
            if !self.is_between(known, column) {
                known = column;
                pattern = self.pattern(Square {
                    row,
                    column,
                    place: start + column,
                });
            }
            count += self.visit(amounts, codes, start + column, &pattern);
        }
        count
    }

    // Fixes the ready squares of one rank in a row, whose first column is told, and answers how many: by steps of a period where it has one
    // such column.
    fn pass_row(
        &self,
        amounts: &mut [Q::Tone],
        codes: &mut [u8],
        rank: u8,
        row: usize,
        first: Option<usize>,
    ) -> usize
        requires row { row < self.now.size.rows }
        requires first { First self.now.size.columns (P.Plan.meaning self.now.plan) rank row first }
        requires lower { LowerStand (squares_of P.Plan.meaning self.now) rank codes.old }
        requires amounts { length amounts.old ≡ self.now.size.rows * self.now.size.columns }
        requires codes { length codes.old ≡ self.now.size.rows * self.now.size.columns }
        ensures few { result ≤ self.now.size.columns }
        ensures after { progress result (band codes.new amounts.new) ≡ passed_from (setting_by Q.Tone.Tone.algebra P.Plan.meaning Q.Quantiser.tables self.now) rank (row * self.now.size.columns) self.now.size.columns (band codes.old amounts.old) }
    {
        let Some(first) = first else {
            return 0;
        };
        if self.is_lone(rank, row, first) {
            self.stride_row(amounts, codes, rank, row, first)
        } else {
            self.scan_row(amounts, codes, rank, row)
        }
    }

    // Fixes the ready squares of one rank in reading order, and answers how many.
    fn pass(&self, amounts: &mut [Q::Tone], codes: &mut [u8], rank: u8) -> usize
        requires lower { LowerStand (squares_of P.Plan.meaning self.now) rank codes.old }
        requires amounts { length amounts.old ≡ self.now.size.rows * self.now.size.columns }
        requires codes { length codes.old ≡ self.now.size.rows * self.now.size.columns }
        ensures few { result ≤ self.now.size.rows * self.now.size.columns }
        ensures after { progress result (band codes.new amounts.new) ≡ passed_below (setting_by Q.Tone.Tone.algebra P.Plan.meaning Q.Quantiser.tables self.now) rank (self.now.size.rows * self.now.size.columns) (band codes.old amounts.old) }
    {
        let firsts = self.first_columns(rank);
        let period = self.plan.row_period();
        let mut count = 0;
        for row in 0..self.size.rows {
            count += self.pass_row(amounts, codes, rank, row, firsts[row % period]);
        }
        count
    }

    // One pass for each rank from 0 to the top: all lower neighbours of a square are fixed before its own rank.
    fn sweep(&self, amounts: &mut [Q::Tone], codes: &mut [u8]) -> usize
        requires amounts { length amounts.old ≡ self.now.size.rows * self.now.size.columns }
        requires codes { length codes.old ≡ self.now.size.rows * self.now.size.columns }
        ensures { progress result (band codes.new amounts.new) ≡ swept_below (setting_by Q.Tone.Tone.algebra P.Plan.meaning Q.Quantiser.tables self.now) ((P.Plan.meaning self.now.plan).top + 1) (band codes.old amounts.old) }
    {
        let mut count = 0;
        for rank in 0..=self.plan.top() {
            count += self.pass(amounts, codes, rank);
        }
        count
    }

    // Fixes every ready square, rank by rank, and answers how many: 2 for the bands.
    pub fn finish(
        &self,
        drawing: &[Q::Tone],
        amounts: &mut [Q::Tone],
        codes: &mut [u8],
    ) -> Result<usize, Refusal>
        ensures { told (counted result) (band codes.new amounts.new) ≡ finish_on (meant Q.Tone.Tone.algebra P.Plan.meaning Q.Quantiser.tables self.now drawing.now) (band codes.old amounts.old) }
    {
        if !self.lengths_match(drawing, amounts, codes) {
            return Err(Refusal::BandLength);
        }
        Ok(self.sweep(amounts, codes))
    }
}
