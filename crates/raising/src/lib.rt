// What a mark that rises changes: the k greatest of the marks, of which the least tells the k-th low, and the
// items met, in the order in which they were.
#![tactic(auto)]

ghost use Rattle.std.specs.Prelude.{true, ◌≡◌, ◌≤◌, ◌<◌, length, get_or};
ghost use Rattle.meeting.specs.Clauses.{view_of};
ghost use Rattle.halting.specs.Clauses.{met_of, mark_of};
ghost use Rattle.raising.specs.Clauses.{SeatBehind, Raised, NewlyGathered};

use halting::rows::Rows;
use meeting::sliding::slide_scores;

// Behind how many of the first `end` entries x stands: the walk is from the last of them to the front, up
// to one that is not less.
fn seat(x: u32, end: usize, tops: &[u32]) -> usize
    requires { end ≤ length tops.now }
    ensures { SeatBehind x end tops.now result }
{
    for j in (0..end).rev() {
        if x <= tops[j] {
            return j + 1;
        }
    }
    0
}

// The k greatest once a mark that was `old` is `new`. Where `old` is one of them, its own entry goes, so
// that no item is counted twice, and else the least.
#[tactic(auto, using(crate::proofs::Raising::raised_stays))]
pub fn raise(k: usize, old: u32, new: u32, tops: &mut [u32])
    requires { (1 ≤ k) × (k ≤ length tops.old) × (old ≤ get_or tops.old 0 0) }
    ensures { Raised k old new tops.old tops.new }
{
    if new <= tops[k - 1] {
        return;
    }
    let behind = seat(old, k, tops);
    let last = behind - 1;
    let at = seat(new, last, tops);
    slide_scores(tops, at, last, new);
}

// The mark of item d, which is met after p rows: its low and one more.
#[tactic(auto, using(halting::specs::Marks::bound_most, halting::specs::Clauses::legible), unfolding(halting::specs::Clauses::mark_of))]
pub fn mark(rows: Rows, d: usize, p: usize) -> u32
    requires { (1 ≤ p) × (p ≤ rows.reading.set.poses) × (d < rows.reading.set.poses)
        × (met_of (view_of rows.reading) p d ≡ true) }
    ensures { result ≡ mark_of (view_of rows.entry.reading) p d }
{
    rows.low(d, p) + 1
}

// Item d, whose mark was `old`, among the items met, and how many there are then: a mark of 0 says that it is new.
pub fn gather(d: u16, old: u32, count: usize, met: &mut [u16]) -> usize
    requires { old ≡ 0 → count < length met.old }
    ensures { NewlyGathered d old count met.old result met.new }
{
    if 0 < old {
        return count;
    }
    met[count] = d;
    count + 1
}
