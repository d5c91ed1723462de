// What the searches share: the three kinds of accesses, what a search reads, and an item's overall score, or a
// bound on it, under a rule and weights.
#![tactic(auto)]

pub mod bounds;
pub mod seats;
pub mod sliding;

ghost use Rattle.poses.specs.Sets.{set_of};
ghost use Rattle.meeting.specs.Clauses.{Readable, query_of};

use poses::PoseSet;
use poses::rules::Rule;

/// How many sorted accesses were made.
#[derive(Clone, Copy, Debug, PartialEq, Eq)]
pub struct Sorted(pub u32);

/// How many direct accesses were made.
#[derive(Clone, Copy, Debug, PartialEq, Eq)]
pub struct Direct(pub u32);

/// How many random accesses were made.
#[derive(Clone, Copy, Debug, PartialEq, Eq)]
pub struct Random(pub u32);

/// What a search has found when it stops, beside what it writes: its rows or rounds, and its accesses by kind.
#[derive(Clone, Copy, Debug, PartialEq, Eq)]
pub struct Found {
    pub rows: u32,
    pub sorted: Sorted,
    pub direct: Direct,
    pub random: Random,
}

/// What scores and bounds are read from: a pose set, a rule and weights, and where each item stands. Nothing is said
/// of what stands in the slices.
#[derive(Clone, Copy)]
pub struct Reading<'a> {
    pub set: PoseSet<'a>,
    pub rule: Rule,
    /// List by list; 0 past the last.
    pub weights: &'a [u32; 8],
    /// Item d's position in list i, from 1, stands at i x `set.poses` + d.
    pub places: &'a [u16],
}

/// What a search reads, once its tests are passed: the lists hold each pose once with scores that never rise,
/// `places` holds the positions, and weights and scores are small enough to be joined.
#[derive(Clone, Copy)]
pub struct Accepted<'a> {
    pub reading: Reading<'a>,
    pub ghost readable: { Readable (set_of reading.set) (query_of reading) reading.places.now },
}
