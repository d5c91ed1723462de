// What NRA reads: an item's low and high after some rows, and the row's threshold.
ghost use Rattle.std.specs.Prelude.{◌≡◌, true, false, ◌≤◌, ◌<◌};
ghost use Rattle.meeting.specs.Clauses.{view_of, bound_of};
ghost use Rattle.halting.specs.Clauses.{Sound, unmet_of};

use meeting::Reading;

/// What NRA reads: each item has a position in each list, and the lists lie within the slices.
#[derive(Clone, Copy)]
pub struct Rows<'a> {
    pub reading: Reading<'a>,
    pub ghost sound: { Sound (view_of reading) },
}

impl Rows<'_> {
    /// Item d's low after p rows.
    pub fn low(self, d: usize, p: usize) -> u32
        requires { (d < self.reading.set.poses) × (1 ≤ p) × (p ≤ self.reading.set.poses) }
        ensures { result ≡ bound_of (view_of self.entry.reading) false p d }
    {
        self.reading.bound(false, d, p)
    }

    /// Item d's high after p rows.
    pub fn high(self, d: usize, p: usize) -> u32
        requires { (d < self.reading.set.poses) × (1 ≤ p) × (p ≤ self.reading.set.poses) }
        ensures { result ≡ bound_of (view_of self.entry.reading) true p d }
    {
        self.reading.bound(true, d, p)
    }

    /// The high of an item that is not met after p rows.
    #[tactic(auto, unfolding(crate::specs::Clauses::unmet_of))]
    pub fn threshold(self, p: usize) -> u32
        requires { (1 ≤ p) × (p ≤ self.reading.set.poses) }
        ensures { result ≡ unmet_of (view_of self.entry.reading) p }
    {
        self.reading.threshold([p; 8])
    }
}
