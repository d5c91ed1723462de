// What NRA's test after p rows asks of each item, with no order made: the test holds exactly where the k-th low
// parts the first k items from all others.
#![tactic(auto)]

pub mod rows;

ghost use Rattle.std.specs.Prelude.{◌≡◌, not, ◌≤◌, ◌<◌, leb, length};
ghost use Rattle.meeting.specs.Clauses.{view_of};
ghost use Rattle.halting.specs.Clauses.{mark_of, listed_reach, passes_of, above_of, Marked, Named, Blocking};

use rows::Rows;

// How many entries of `met` are items whose mark is above the bar.
#[tactic(auto, using(crate::proofs::Counting::one_counted, laws::specs::Passing::passing_most), unfolding(crate::specs::Clauses::listed_reach, laws::specs::Passing::passing))]
pub fn reach(bar: u32, marks: &[u32], met: &[u16]) -> usize
    requires { Named (length marks.now) met.now }
    ensures { result ≡ listed_reach (length met.now) marks.now met.now bar }
{
    let mut total = 0;
    for &item in met {
        total += usize::from(bar < marks[usize::from(item)]);
    }
    total
}

// Item d, whose mark is `own`, stands in the way of stopping: its high is above the bar, and it is not met or
// its low does not reach the bar.
#[tactic(auto, using(crate::proofs::Blocks::low_over, crate::proofs::Blocks::low_under))]
fn in_the_way(rows: Rows, d: usize, p: usize, bar: u32, own: u32) -> bool
    requires { (1 ≤ p) × (p ≤ rows.reading.set.poses) × (d < rows.reading.set.poses)
        × (own ≡ mark_of (view_of rows.reading) p d) }
    ensures { result ≡ not (passes_of (view_of rows.entry.reading) p bar d) }
{
    own <= bar && bar < rows.high(d, p)
}

// The first entry of `met` whose item stands in the way of stopping after p rows.
pub fn blocker(rows: Rows, p: usize, bar: u32, marks: &[u32], met: &[u16]) -> Option<usize>
    requires { (1 ≤ p) × (p ≤ rows.reading.set.poses) × Marked (view_of rows.reading) p marks.now
        × Named rows.reading.set.poses met.now }
    ensures { Blocking (view_of rows.entry.reading) p bar met.now result }
{
    for (j, &item) in met.iter().enumerate() {
        let d = usize::from(item);
        if in_the_way(rows, d, p, bar, marks[d]) {
            return Some(j);
        }
    }
    None
}

// At most k items have highs above the bar.
#[tactic(auto, using(crate::proofs::Counting::one_counted, laws::specs::Passing::passing_most), unfolding(crate::specs::Clauses::above_of, laws::specs::Passing::passing))]
pub fn few_above(rows: Rows, p: usize, k: usize, bar: u32) -> bool
    requires { (1 ≤ p) × (p ≤ rows.reading.set.poses) }
    ensures { result ≡ leb (above_of (view_of rows.entry.reading) p bar) k }
{
    let mut count = 0;
    for d in 0..rows.reading.set.poses {
        count += usize::from(bar < rows.high(d, p));
    }
    count <= k
}
