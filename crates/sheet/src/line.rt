// One row of a sheet.
ghost use Rattle.std.specs.Prelude.{◌≤◌, ◌≡◌, length, take};

// The first `count` ranks are the row's; those behind are 0. A row is made and copied without a heap, so it has an array and no Vec.
#[derive(Clone, Copy)]
pub struct SheetRow {
    pub ranks: [u8; 16],
    pub count: usize,
    ghost full: { length ranks ≡ 16 },
    ghost few: { count ≤ 16 },
}

impl SheetRow {
    // The row's ranks alone.
    pub fn ranks(&self) -> &[u8]
        ensures { result.now ≡ take self.now.count self.now.ranks }
    {
        &self.ranks[..self.count]
    }
}
