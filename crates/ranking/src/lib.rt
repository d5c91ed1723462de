// NRA's shortlist, written once: the first k of the items met after the row at which it stops.
#![tactic(auto)]

mod shortlist;

ghost use Rattle.std.specs.Prelude.{◌-◌, ◌≤◌, ◌<◌, length};
ghost use Rattle.meeting.specs.Clauses.{view_of};
ghost use Rattle.meeting.specs.Shortlist.{Spaced, Keeps};
ghost use Rattle.halting.specs.Clauses.{Marked, Listed};
ghost use Rattle.blocking.specs.Clauses.{Kth};
ghost use Rattle.ranking.specs.Clauses.{HeldIn, Considered};

use halting::rows::Rows;
use shortlist::keep;

// The item, where its mark is no smaller than `top`, into the first k after p rows, and how many there are then.
// Its mark is its low and one more, so only its high is left to find.
fn consider(
    rows: Rows,
    item: u16,
    p: usize,
    k: usize,
    top: u32,
    filled: usize,
    marks: &[u32],
    picks: &mut [u16],
    lows: &mut [u32],
    highs: &mut [u32],
) -> usize
    requires { (1 ≤ p) × (p ≤ rows.reading.set.poses) × Marked (view_of rows.reading) p marks.now
        × (item < rows.reading.set.poses) × (1 ≤ top) × Keeps k filled picks.old lows.old highs.old }
    ensures { Considered (view_of rows.entry.reading) k p (top - 1) item filled picks.old lows.old highs.old
        result picks.new lows.new highs.new }
{
    let d = usize::from(item);
    let own = marks[d];
    if own < top {
        return filled;
    }
    let high = rows.high(d, p);
    keep(item, own - 1, high, k, filled, picks, lows, highs)
}

// The first k of all items met after p rows, and how many there are. `top` is the k-th mark: k items have one that
// is no smaller, so an item with a smaller one is not among the first k.
pub fn rank(
    rows: Rows,
    p: usize,
    k: usize,
    top: u32,
    marks: &[u32],
    met: &[u16],
    picks: &mut [u16],
    lows: &mut [u32],
    highs: &mut [u32],
) -> usize
    requires { (1 ≤ p) × (p ≤ rows.reading.set.poses) × Marked (view_of rows.reading) p marks.now
        × Kth rows.reading.set.poses k marks.now top × (1 ≤ top)
        × Listed rows.reading.set.poses marks.now met.now (length met.now)
        × Spaced k picks.old lows.old highs.old }
    ensures { HeldIn (view_of rows.entry.reading) k p picks.old lows.old highs.old result picks.new lows.new
        highs.new }
{
    let mut filled = 0;
    for &item in met {
        filled = consider(rows, item, p, k, top, filled, marks, picks, lows, highs);
    }
    filled
}
