// The lists of the list check, all at once. Most sets pass, and one that does is swept as a whole; only a damaged one needs a walk.
#![tactic(auto)]

ghost use Rattle.std.specs.Prelude.{◌≡◌, ◌*◌, length};
ghost use Rattle.poses.specs.Sets.{set_of};
ghost use Rattle.passing.specs.Clauses.{Within, WholeNoted, Sweepable, RowsSwept};

use poses::PoseSet;
use sweeps::{greatest, has_zero, note_items, rises};

// Notes each list's items in its own row, until in a list a score is above the one before it. Answers whether there is such a list.
fn note_until_rise(set: PoseSet, places: &mut [u16]) -> bool
    requires { Sweepable (set_of set) places.old }
    ensures { RowsSwept (set_of set.entry) result places.new }
{
    let n = set.poses;
    for i in 0..set.lists {
        let from = i * n;
        let to = from + n;
        if rises(&set.scores[from..to]) {
            return true;
        }
        note_items(&set.items[from..to], &mut places[from..to]);
    }
    false
}

// Whether all lists pass, with their items noted: n items below n leave no place empty only if none stands twice. Where a list is
// damaged, a walk tells where. The places are asked last, when the stores to them are done.
pub fn note_whole(set: PoseSet, places: &mut [u16]) -> bool
    requires { Within (set_of set) × (length places.old ≡ set.lists * set.poses) }
    ensures { WholeNoted (set_of set.entry) result places.new }
{
    let size = set.lists * set.poses;
    let most = usize::from(greatest(&set.items[..size]));
    if set.poses <= most {
        return false;
    }
    places.fill(0);
    !note_until_rise(set, places) && !has_zero(places)
}
