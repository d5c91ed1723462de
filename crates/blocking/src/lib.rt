// What stands in the way of stopping after a row. One item settles it, and mostly the item that stood there after
// the row before still does: so long as items that are not met are in the way, no other item is looked at.
#![tactic(auto)]

ghost use Rattle.std.specs.Prelude.{◌≤◌, ◌<◌, length};
ghost use Rattle.meeting.specs.Clauses.{view_of};
ghost use Rattle.halting.specs.Clauses.{Marked, Listed};
ghost use Rattle.blocking.specs.Clauses.{InTheWay, Kth, Obstructed};

use halting::rows::Rows;
use halting::{blocker, few_above, reach};

// An entry of `met` whose item stands in the way of stopping after p rows. The one at `at`, which stood there
// last, is asked first, then those behind it, then those in front of it.
fn met_in_the_way(
    rows: Rows,
    at: usize,
    p: usize,
    bar: u32,
    marks: &[u32],
    met: &[u16],
) -> Option<usize>
    requires { (1 ≤ p) × (p ≤ rows.reading.set.poses) × Marked (view_of rows.reading) p marks.now
        × Listed rows.reading.set.poses marks.now met.now (length met.now) × (at ≤ length met.now) }
    ensures { InTheWay (view_of rows.entry.reading) p bar met.now result }
{
    if let Some(j) = blocker(rows, p, bar, marks, &met[at..]) {
        return Some(at + j);
    }
    blocker(rows, p, bar, marks, &met[..at])
}

// What keeps NRA from stopping after p rows, as an entry of `met`; `top` is the k-th mark. Where no item is in
// the way, more than k highs can be above the k-th low only if more than k lows reach it.
pub fn obstacle(
    rows: Rows,
    at: usize,
    p: usize,
    k: usize,
    top: u32,
    marks: &[u32],
    met: &[u16],
) -> Option<usize>
    requires { (1 ≤ p) × (p ≤ rows.reading.set.poses) × Marked (view_of rows.reading) p marks.now
        × Listed rows.reading.set.poses marks.now met.now (length met.now) × (1 ≤ k)
        × Kth rows.reading.set.poses k marks.now top × (at < rows.reading.set.poses) × (at ≤ length met.now) }
    ensures { Obstructed (view_of rows.entry.reading) k p (length met.now) result }
{
    if top == 0 {
        return Some(at);
    }
    let bar = top - 1;
    // The high of an item that is not met is the row's threshold.
    if met.len() < rows.reading.set.poses && bar < rows.threshold(p) {
        return Some(at);
    }
    if let Some(found) = met_in_the_way(rows, at, p, bar, marks, met) {
        return Some(found);
    }
    if reach(bar, marks, met) <= k || few_above(rows, p, k, bar) {
        return None;
    }
    Some(at)
}
