//! One list of the list check, walked: its entries are looked at in reading order until one is refused, and each item's position is
//! noted.
#![tactic(auto)]

ghost use Rattle.std.specs.Prelude.{◌≡◌, ◌+◌, ◌<◌};
ghost use Rattle.entries.specs.Clauses.{Listed, ListNoted};

use poses::PoseSet;
use poses::refusals::{Refusal, Spot};

// Where a refusal is met: list and position count from 1, i and p from 0.
fn spot(i: usize, p: usize) -> Spot
    requires { (i < 8) × (p < 1024) }
    ensures list { result.list ≡ i + 1 }
    ensures position { result.position ≡ p + 1 }
{
    Spot {
        list: (i + 1) as u32,
        position: (p + 1) as u32,
    }
}

/// Tests 7, 8, 9 position by position in list i, counted from 0. Each item that passes is noted at its own place of `places`, so an
/// item that stood earlier is seen there.
pub fn walk_list(i: usize, set: PoseSet, places: &mut [u16]) -> Result<(), Refusal>
    requires { Listed i set.poses set.items.now set.scores.now places.old }
    ensures { ListNoted i set.entry.poses set.entry.items.now set.entry.scores.now result places.new }
{
    places.fill(0);
    let PoseSet {
        poses: n,
        items,
        scores,
        ..
    } = set;
    let from = i * n;
    // No score is above it, so position 1 needs no test of its own.
    let mut before = u32::MAX;
    for p in 0..n {
        let item = usize::from(items[from + p]);
        if n <= item {
            return Err(Refusal::UnknownItem(spot(i, p)));
        }
        if places[item] != 0 {
            return Err(Refusal::ItemTwice(spot(i, p)));
        }
        let score = u32::from(scores[from + p]);
        if before < score {
            return Err(Refusal::ScoreRises(spot(i, p)));
        }
        before = score;
        places[item] = (p + 1) as u16;
    }
    Ok(())
}
