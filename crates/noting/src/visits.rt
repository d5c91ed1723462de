// Visits of positions, kept in the tally, and the best position of a list read off it.
ghost use Rattle.std.specs.Prelude.{◌≡◌};
ghost use Rattle.noting.specs.Clauses.{Visitable, visited_once, Walkable, walked_to, Advancing, Advanced};

use meeting::Reading;
use poses::PoseSet;

/// One visit of item d's position in every list.
#[tactic(auto, using(crate::proofs::Visiting::visiting_starts, crate::proofs::Visiting::visiting_goes_on, crate::proofs::Visiting::count_before), unfolding(crate::specs::Clauses::visited_once))]
pub fn visit(d: usize, reading: Reading, tally: &mut [u8])
    requires { Visitable d reading.set.lists reading.set.poses tally.old reading.places.now }
    ensures { tally.new ≡ visited_once d reading.entry.set.lists reading.entry.set.poses
        reading.entry.places.now tally.old }
{
    for i in 0..reading.set.lists {
        let base = i * reading.set.poses;
        let place = usize::from(reading.places[base + d]);
        tally[base + place - 1] += 1;
    }
}

/// The first position of list i, from `from` on, that was not visited; `set.poses` where there is none. All
/// before `from` were, so nothing is searched from the front again.
#[tactic(auto, using(crate::proofs::Visiting::walked_is))]
pub fn walk_on(i: usize, set: PoseSet, from: usize, tally: &[u8]) -> usize
    requires { Walkable i set.lists set.poses from tally.now }
    ensures { result ≡ walked_to i set.entry.poses tally.now }
{
    let base = i * set.poses;
    for b in from..set.poses {
        if tally[base + b] == 0 {
            return b;
        }
    }
    set.poses
}

/// Takes a position of each list, up to which all are visited, on to the list's best position.
pub fn advance(set: PoseSet, best: &mut [usize; 8], tally: &[u8])
    requires { Advancing set.lists set.poses best.old tally.now }
    ensures { Advanced set.entry.lists set.entry.poses tally.now best.new }
{
    for i in 0..set.lists {
        best[i] = walk_on(i, set, best[i], tally);
    }
}
