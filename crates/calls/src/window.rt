// A part of lent memory, into which one call writes.
ghost use Rattle.std.specs.Prelude.{◌≡◌, ◌≤◌};
ghost use Rattle.calls.specs.Windows.{low_end, high_end};

// A window of one memory and no slice of it: the calls of a list may write over each other, and the promise is over all of the memory.
// It is cut to the memory where it reaches past the end, so that every length and content of an output occurs.
#[derive(Clone, Copy)]
pub struct Window {
    pub start: usize,
    pub length: usize,
}

impl Window {
    // Where the window begins in memory of so many elements.
    pub fn low(&self, memory: usize) -> usize
        ensures value { result ≡ low_end self.now memory }
        ensures bound { result ≤ memory }
    {
        self.start.min(memory)
    }

    // Where it ends there.
    pub fn high(&self, memory: usize) -> usize
        ensures value { result ≡ high_end self.now memory }
        ensures bound { result ≤ memory }
        ensures order { low_end self.now memory ≤ result }
    {
        let low = self.low(memory);
        low + self.length.min(memory - low)
    }
}
