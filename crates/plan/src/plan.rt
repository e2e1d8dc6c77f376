// What a plan is: the order in which squares are taken, told by ranks.
ghost use Rattle.std.specs.Prelude.{◌≡◌};
ghost use Rattle.plan.specs.Ranks.{Ranks, Lawful};

pub trait Plan {
    // What the four questions below answer. Asking changes nothing, and each answer depends on the plan and the arguments alone.
    ghost meaning: { Self → Ranks };

    // The ranks repeat after so many rows.
    fn row_period(&self) -> usize
        ensures { result ≡ (meaning self.now).row_period };

    // The ranks repeat after so many columns.
    fn column_period(&self) -> usize
        ensures { result ≡ (meaning self.now).column_period };

    // No rank is above it.
    fn top(&self) -> u8
        ensures { result ≡ (meaning self.now).top };

    fn rank(&self, row: usize, column: usize) -> u8
        ensures { result ≡ (meaning self.now).rank row column };

    ghost lawful: { (p : Self) → Lawful (meaning p) };
}
