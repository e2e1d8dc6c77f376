// Two codes in one byte.
ghost use Rattle.std.specs.Prelude.{◌≡◌, ◌*◌};
ghost use Rattle.quantiser.specs.Codes.{below, joined, first_of, second_of};

use crate::counts::Counts;

// A code below n is itself, and any other is taken for 0.
fn capped(n: u8, code: u8) -> u8
    ensures { result ≡ below n code }
{
    if code < n { code } else { 0 }
}

impl Counts {
    // How many codes the two have together.
    pub fn product(&self) -> u8
        ensures { result ≡ self.now.first * self.now.second }
    {
        self.first * self.second
    }

    // The code that stands for two. One that is not below its count is taken for 0.
    pub fn join(&self, a: u8, b: u8) -> u8
        ensures { result ≡ joined self.now a b }
    {
        capped(self.first, a) * self.second + capped(self.second, b)
    }

    // The first of the two codes that a code stands for.
    pub fn first_of(&self, code: u8) -> u8
        ensures { result ≡ first_of self.now code }
    {
        code / self.second
    }

    // The second of the two codes that a code stands for.
    pub fn second_of(&self, code: u8) -> u8
        ensures { result ≡ second_of self.now code }
    {
        code % self.second
    }
}
