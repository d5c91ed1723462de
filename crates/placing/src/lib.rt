// Rows of item, low and high, filled from a shortlist's columns, and how many there are to fill.
#![tactic(auto)]

ghost use Rattle.std.specs.Prelude.{◌≡◌, ◌≤◌, ◌<◌, length};
ghost use Rattle.model.specs.Words.{row};
ghost use Rattle.placing.specs.Rows.{place_at, onto};
ghost use Rattle.placing.specs.Counts.{enough_of, lesser_of};

/// A place of the shortlist, as the host keeps it.
#[repr(C)]
#[derive(Clone, Copy, Debug, PartialEq, Eq)]
pub struct Place {
    pub item: u16,
    pub low: u32,
    pub high: u32,
}

/// A shortlist by columns. 1,024 places hold the longest.
#[derive(Clone, Copy)]
pub struct Columns {
    pub picks: [u16; 1024],
    pub lows: [u32; 1024],
    pub highs: [u32; 1024],
}

impl Columns {
    /// The place of row i.
    fn place(&self, i: usize) -> Place
        requires { i < 1024 }
        ensures { result ≡ place_at self.now.picks self.now.lows self.now.highs i }
    {
        Place {
            item: self.picks[i],
            low: self.lows[i],
            high: self.highs[i],
        }
    }

    /// The first `count` places into the first rows; the other rows stay as lent.
    pub fn fill(&self, rows: &mut [Place], count: usize)
        requires { (count ≤ 1024) × (count ≤ length rows.old) }
        ensures { rows.new ≡ onto (row (place_at self.now.picks self.now.lows self.now.highs) count) rows.old }
    {
        for i in 0..count {
            rows[i] = self.place(i);
        }
    }
}

/// So many rows are written: none where a search is refused.
pub fn enough(number: u32, count: usize) -> usize
    ensures { result ≡ enough_of number count }
{
    if number == 0 { count } else { 0 }
}

/// So many places are lent to a search: as many as there are rows, and 1,024 at most. Its own test tells whether they
/// are enough.
pub fn lesser(rows: usize) -> usize
    ensures { result ≡ lesser_of rows }
{
    rows.min(1024)
}
