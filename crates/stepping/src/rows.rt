// One step of a search: an item is met, a row is read, a round is run.
ghost use Rattle.std.specs.Prelude.{◌+◌, ◌<◌};
ghost use Rattle.model.specs.Accesses.{rows_ta};
ghost use Rattle.poses.specs.Sets.{set_of};
ghost use Rattle.meeting.specs.Clauses.{query_of};
ghost use Rattle.noting.specs.Shortlists.{IsSameShortlist};
ghost use Rattle.stepping.specs.State.{Meeting, Met, Goes, Standing, Looking, Turned, Rounding, Rounded};

use meeting::{Accepted, Reading};
use noting::shortlist::Shortlist;
use noting::visits;

/// Item d is found: one visit of its position in every list and, where it is new, its score and its place in the
/// shortlist. It is new where list 1 was never visited at its position.
#[tactic(auto, using(crate::proofs::Meetings::met_again, crate::proofs::Meetings::met_first))]
pub fn meet(d: u16, reading: Reading, shortlist: &mut Shortlist, tally: &mut [u8])
    requires { Meeting d reading tally.old }
    ensures same { IsSameShortlist shortlist.old shortlist.new }
    ensures meets { Met d reading.entry shortlist.old tally.old shortlist.new tally.new }
{
    let item = usize::from(d);
    let first = usize::from(reading.places[item]) - 1;
    let times = tally[first];
    visits::visit(item, reading, tally);
    if times != 0 {
        return;
    }
    let x = reading.bound(false, item, reading.set.poses);
    shortlist.keep(d, x);
}

/// Row p, counted from 0: in each list the item at position p is met.
pub fn row(p: usize, accepted: Accepted, shortlist: &mut Shortlist, tally: &mut [u8])
    requires { Standing accepted.reading (rows_ta (set_of accepted.reading.set) p) shortlist.old tally.old
        × (p < accepted.reading.set.poses) }
    ensures same { IsSameShortlist shortlist.old shortlist.new }
    ensures goes { let s = set_of accepted.entry.reading.set in
        Goes s (query_of accepted.entry.reading) (rows_ta s p) (rows_ta s (p + 1)) shortlist.old tally.old
        shortlist.new tally.new }
{
    let reading = accepted.reading;
    for i in 0..reading.set.lists {
        let d = reading.set.items[i * reading.set.poses + p];
        meet(d, reading, shortlist, tally);
    }
}

/// A turn of BPA2 at list i, whose best position is b: the item at the next position is met, unless b is the last.
#[tactic(auto, unfolding(model::specs::Given::item))]
fn look(i: usize, b: usize, reading: Reading, shortlist: &mut Shortlist, tally: &mut [u8])
    requires { Looking i b reading tally.old }
    ensures same { IsSameShortlist shortlist.old shortlist.new }
    ensures turns { Turned i b reading.entry shortlist.old tally.old shortlist.new tally.new }
{
    if b == reading.set.poses {
        return;
    }
    let d = reading.set.items[i * reading.set.poses + b];
    meet(d, reading, shortlist, tally);
}

/// A round of BPA2: for each list its best position as it is now, earlier lists of this round included, and a
/// turn there. Up to best[i] all positions of list i were visited before, and so they are afterwards. Gives how
/// many direct accesses it made.
pub fn round(
    accepted: Accepted,
    best: &mut [usize; 8],
    shortlist: &mut Shortlist,
    tally: &mut [u8],
) -> u32
    requires { Rounding accepted.reading best.old shortlist.old tally.old }
    ensures same { IsSameShortlist shortlist.old shortlist.new }
    ensures rounds { Rounded accepted.entry.reading best.old shortlist.old tally.old result best.new
        shortlist.new tally.new }
{
    let reading = accepted.reading;
    let mut found = 0;
    for i in 0..reading.set.lists {
        let from = best[i];
        let b = visits::walk_on(i, reading.set, from, tally);
        best[i] = b;
        found += u32::from(b < reading.set.poses);
        look(i, b, reading, shortlist, tally);
    }
    found
}
