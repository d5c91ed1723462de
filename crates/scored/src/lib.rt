// The searches that look an item's whole score up: TA, BPA and BPA2. They differ in the positions of a row or round
// and in those of the threshold, so one loop serves all three.
#![tactic(auto)]

ghost use Rattle.poses.specs.Sets.{set_of};
ghost use Rattle.meeting.specs.Clauses.{query_of};
ghost use Rattle.noting.specs.Shortlists.{IsSameShortlist};
ghost use Rattle.scored.specs.Run.{Stepping, Stepped, Running, RanBy};

use judging::{Bpa, Bpa2, Judged, Ta, ends};
use meeting::{Accepted, Found};
use noting::shortlist::Shortlist;
use stepping::rows;
use tallying::clear;

/// A search by its rows or rounds.
pub trait Scored: Judged {
    /// Row or round p, counted from 0. Gives how many items it finds, and leaves in `best` positions up to which
    /// all are visited.
    fn step(
        p: usize,
        accepted: Accepted,
        best: &mut [usize; 8],
        shortlist: &mut Shortlist,
        tally: &mut [u8],
    ) -> u32
        requires { Stepping Self.number p accepted.reading best.old shortlist.old tally.old }
        ensures same { IsSameShortlist shortlist.old shortlist.new }
        ensures steps { Stepped Self.number p accepted.entry.reading shortlist.old tally.old result
            best.new shortlist.new tally.new };
}

impl Scored for Ta {
    #[tactic(auto, using(crate::proofs::Running::row_reached, crate::proofs::Running::row_counted), unfolding(crate::specs::Run::steps_by, crate::specs::Run::kind_by))]
    fn step(
        p: usize,
        accepted: Accepted,
        _best: &mut [usize; 8],
        shortlist: &mut Shortlist,
        tally: &mut [u8],
    ) -> u32 {
        rows::row(p, accepted, shortlist, tally);
        accepted.reading.set.lists as u32
    }
}

impl Scored for Bpa {
    #[tactic(auto, unfolding(crate::specs::Run::steps_by, crate::specs::Run::kind_by))]
    fn step(
        p: usize,
        accepted: Accepted,
        best: &mut [usize; 8],
        shortlist: &mut Shortlist,
        tally: &mut [u8],
    ) -> u32 {
        Ta::step(p, accepted, best, shortlist, tally)
    }
}

impl Scored for Bpa2 {
    #[tactic(auto, unfolding(crate::specs::Run::steps_by, crate::specs::Run::kind_by))]
    fn step(
        _p: usize,
        accepted: Accepted,
        best: &mut [usize; 8],
        shortlist: &mut Shortlist,
        tally: &mut [u8],
    ) -> u32 {
        rows::round(accepted, best, shortlist, tally)
    }
}

/// A search, once its tests are passed: the first `count` items with their scores, and the tally, over what was
/// lent.
pub fn run<M: Scored>(
    accepted: Accepted,
    count: usize,
    picks: &mut [u16],
    lows: &mut [u32],
    tally: &mut [u8],
) -> Found
    requires { Running (set_of accepted.reading.set) count picks.old lows.old tally.old }
    ensures { RanBy M.number (set_of accepted.entry.reading.set) (query_of accepted.entry.reading) count
        picks.old lows.old tally.old result picks.new lows.new tally.new }
{
    let reading = accepted.reading;
    let set = reading.set;
    clear(tally, set.lists * set.poses);
    let mut best = [0; 8];
    let mut shortlist = Shortlist {
        count,
        filled: 0,
        picks,
        lows,
    };
    let mut found = 0;
    for p in 0..set.poses {
        found += M::step(p, accepted, &mut best, &mut shortlist, tally);
        let done = p + 1;
        M::positions(done, set, &mut best, tally);
        let last = shortlist.last_score();
        if ends(done, reading, best, shortlist.count, shortlist.filled, last) {
            return M::counts(done, set.lists, found);
        }
    }
    // The last row or round ends every search.
    unreachable!()
}

/// A search by its number: 0 TA, 2 BPA2, any other BPA.
pub fn run_by(
    which: u8,
    accepted: Accepted,
    count: usize,
    picks: &mut [u16],
    lows: &mut [u32],
    tally: &mut [u8],
) -> Found
    requires { Running (set_of accepted.reading.set) count picks.old lows.old tally.old }
    ensures { RanBy which (set_of accepted.entry.reading.set) (query_of accepted.entry.reading) count
        picks.old lows.old tally.old result picks.new lows.new tally.new }
{
    match which {
        0 => run::<Ta>(accepted, count, picks, lows, tally),
        2 => run::<Bpa2>(accepted, count, picks, lows, tally),
        _ => run::<Bpa>(accepted, count, picks, lows, tally),
    }
}
