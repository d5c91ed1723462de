// What TA, BPA and BPA2 are judged by after a row or round: the positions of the threshold, the test against it, and the accesses
// made, by kind.
#![tactic(auto)]

ghost use Rattle.std.specs.Prelude.{◌≡◌, ◌&&◌, ◌||◌, ◌-◌, ◌*◌, ◌≤◌, ℕ, leb, eqb};
ghost use Rattle.poses.specs.Rules.{rule_number};
ghost use Rattle.meeting.specs.Clauses.{Limited, limit_at};
ghost use Rattle.noting.specs.Clauses.{Advancing};
ghost use Rattle.judging.specs.Clauses.{Positioned, Counting, Counted};

use meeting::{Direct, Found, Random, Reading, Sorted};
use noting::visits;
use poses::PoseSet;

/// A search that looks an item's whole score up: where its threshold is taken, and how its accesses are counted.
pub trait Judged {
    /// 0 TA, 1 BPA, 2 BPA2.
    ghost number: { ℕ };

    /// The positions of the threshold after p rows or rounds, from positions up to which all are visited.
    fn positions(p: usize, set: PoseSet, best: &mut [usize; 8], tally: &[u8])
        requires { Advancing set.lists set.poses best.old tally.now }
        ensures { Positioned number p set.entry.lists set.entry.poses tally.now best.new };

    /// Each of `found` lookups is one access of the search's own kind and a random one in each other list.
    fn counts(p: usize, lists: usize, found: u32) -> Found
        requires { Counting p lists found }
        ensures { Counted number p lists found result };
}

/// The threshold algorithm.
pub struct Ta;

/// The best position algorithm.
pub struct Bpa;

/// The best position algorithm that visits no position twice.
pub struct Bpa2;

// An item that is found in one list is looked up in each other.
fn looked_up(lists: usize, found: u32) -> Random
    requires { (1 ≤ lists) × (lists ≤ 8) × (found ≤ 8192) }
    ensures { result.0 ≡ found * (lists - 1) }
{
    let others = (lists - 1) as u32;
    Random(found * others)
}

impl Judged for Ta {
    ghost number = { 0 };

    // Position p in every list.
    fn positions(p: usize, _set: PoseSet, best: &mut [usize; 8], _tally: &[u8]) {
        best.fill(p);
    }

    fn counts(p: usize, lists: usize, found: u32) -> Found {
        Found {
            rows: p as u32,
            sorted: Sorted(found),
            direct: Direct(0),
            random: looked_up(lists, found),
        }
    }
}

impl Judged for Bpa {
    ghost number = { 1 };

    // Each list's best position.
    fn positions(_p: usize, set: PoseSet, best: &mut [usize; 8], tally: &[u8]) {
        visits::advance(set, best, tally);
    }

    fn counts(p: usize, lists: usize, found: u32) -> Found {
        Ta::counts(p, lists, found)
    }
}

impl Judged for Bpa2 {
    ghost number = { 2 };

    fn positions(p: usize, set: PoseSet, best: &mut [usize; 8], tally: &[u8]) {
        Bpa::positions(p, set, best, tally);
    }

    fn counts(p: usize, lists: usize, found: u32) -> Found {
        Found {
            rows: p as u32,
            sorted: Sorted(0),
            direct: Direct(found),
            random: looked_up(lists, found),
        }
    }
}

/// The positions of the threshold of a search by its number: 0 TA, 2 BPA2, any other BPA.
pub fn positions_by(which: u8, p: usize, set: PoseSet, best: &mut [usize; 8], tally: &[u8])
    requires { Advancing set.lists set.poses best.old tally.now }
    ensures { Positioned which p set.entry.lists set.entry.poses tally.now best.new }
{
    match which {
        0 => Ta::positions(p, set, best, tally),
        2 => Bpa2::positions(p, set, best, tally),
        _ => Bpa::positions(p, set, best, tally),
    }
}

/// The accesses of a search by its number: 0 TA, 2 BPA2, any other BPA.
pub fn counts_by(which: u8, p: usize, lists: usize, found: u32) -> Found
    requires { Counting p lists found }
    ensures { Counted which p lists found result }
{
    match which {
        0 => Ta::counts(p, lists, found),
        2 => Bpa2::counts(p, lists, found),
        _ => Bpa::counts(p, lists, found),
    }
}

/// The search ends after p rows or rounds: at the last row, or when at least `count` items are met and the score
/// in the last of so many places is at or above the threshold.
pub fn ends(
    p: usize,
    reading: Reading,
    at: [usize; 8],
    count: usize,
    filled: usize,
    last: u32,
) -> bool
    requires { Limited reading.set.lists reading.set.poses at reading.weights.now
        reading.set.scores.now }
    ensures { result ≡ (eqb p reading.entry.set.poses || (leb count filled
        && leb (limit_at (rule_number reading.entry.rule) reading.entry.weights.now
        reading.entry.set.lists reading.entry.set.poses at reading.entry.set.scores.now) last)) }
{
    p == reading.set.poses || filled >= count && reading.threshold(at) <= last
}
