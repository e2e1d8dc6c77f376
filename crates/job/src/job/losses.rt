// Losses: the errors that no neighbour takes, by place.
ghost use Rattle.std.specs.Prelude.{◌≡◌, ◌*◌, ◌≤◌, length};
ghost use Rattle.model.specs.Calls.{listed};
ghost use Rattle.model.specs.Steps.{losses_on};
ghost use Rattle.job.specs.Answers.{counted};
ghost use Rattle.job.specs.Listings.{lost_below, Listing};
ghost use Rattle.job.specs.Meaning.{squares_of, meant, band};

use crate::job::Job;
use plan::Plan;
use quantiser::Quantiser;
use refusal::Refusal;

impl<P: Plan, Q: Quantiser> Job<P, Q> {
    // How many squares are fixed barons.
    fn count_losses(&self, codes: &[u8]) -> usize
        requires { length codes.now ≡ self.now.size.rows * self.now.size.columns }
        ensures { result ≡ length (lost_below (squares_of P.Plan.meaning self.now) codes.now (self.now.size.rows * self.now.size.columns)) }
    {
        self.size
            .in_reading_order()
            .filter(|square| self.is_lost(codes[square.place], *square))
            .count()
    }

    // Lists place and error of each fixed baron by rising place, and answers how many there are, in lists with room for all.
    fn list_losses(
        &self,
        amounts: &[Q::Tone],
        codes: &[u8],
        places: &mut [usize],
        errors: &mut [Q::Tone],
    ) -> usize
        requires codes { length codes.now ≡ self.now.size.rows * self.now.size.columns }
        requires amounts { length amounts.now ≡ self.now.size.rows * self.now.size.columns }
        requires places { length (lost_below (squares_of P.Plan.meaning self.now) codes.now (self.now.size.rows * self.now.size.columns)) ≤ length places.old }
        requires errors { length (lost_below (squares_of P.Plan.meaning self.now) codes.now (self.now.size.rows * self.now.size.columns)) ≤ length errors.old }
        ensures { Listing Q.Tone.Tone.algebra (squares_of P.Plan.meaning self.now) codes.now amounts.now (self.now.size.rows * self.now.size.columns) result places.old places.new errors.old errors.new }
    {
        // Counted by hand: `.filter(..).enumerate()` was tried, but rattle's `Given` of that loop, in a generic function, is ill-typed.
        let mut count = 0;
        for square in self.size.in_reading_order() {
            if self.is_lost(codes[square.place], square) {
                places[count] = square.place;
                errors[count] = amounts[square.place];
                count += 1;
            }
        }
        count
    }

    // Lists place and error of each fixed baron by rising place, and answers how many there are. They are counted first: where
    // one list is too short, both stay as they were.
    pub fn losses(
        &self,
        drawing: &[Q::Tone],
        amounts: &[Q::Tone],
        codes: &[u8],
        places: &mut [usize],
        errors: &mut [Q::Tone],
    ) -> Result<usize, Refusal>
        ensures { listed (counted result) places.new errors.new ≡ losses_on (meant Q.Tone.Tone.algebra P.Plan.meaning Q.Quantiser.tables self.now drawing.now) (band codes.now amounts.now) places.old errors.old }
    {
        if !self.lengths_match(drawing, amounts, codes) {
            return Err(Refusal::BandLength);
        }
        let count = self.count_losses(codes);
        if places.len() < count || errors.len() < count {
            return Err(Refusal::OutputTooShort);
        }
        Ok(self.list_losses(amounts, codes, places, errors))
    }
}
