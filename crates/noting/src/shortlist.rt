// The shortlist while items are met.
ghost use Rattle.meeting.specs.Shortlist.{Keeps};

/// The best of the items met so far, by score falling, then item rising: at most `count` of them, in the slices
/// that are lent.
#[derive(Drop)]
pub struct Shortlist<'a> {
    /// How many places it has.
    pub count: usize,
    /// How many items it holds, in its first places.
    pub filled: usize,
    pub picks: &'a mut [u16],
    /// The items' scores, which are both their lows and their highs.
    pub lows: &'a mut [u32],
    pub ghost keeps: { Keeps count filled picks.now lows.now lows.now },
}
