//! The tests of a search before it runs: its own, in their order, then the list check.
#![tactic(auto)]

ghost use Rattle.std.specs.Prelude.{◌≡◌, length, OnOk};
ghost use Rattle.model.specs.Refusals.{accepted};
ghost use Rattle.model.specs.Answers.{told};
ghost use Rattle.poses.specs.Refusals.{value_of};
ghost use Rattle.admission.specs.Clauses.{shape_of, Admitted};

use poses::refusals::Refusal;
use poses::{PoseSet, Query};
use testing::{Lengths, no_room, wrong_k, wrong_weights};

// Tests 1 to 6, in that order. The slices count by their lengths.
#[tactic(auto, using(laws::specs::Accepted::sized, laws::specs::Accepted::size_fits), unfolding(crate::specs::Clauses::shape_of, model::specs::Refusals::wrong_rule))]
fn shape(set: PoseSet, query: Query, lengths: Lengths, work: usize) -> Result<(), Refusal>
    ensures tells { value_of result ≡ told (shape_of set.entry.lists set.entry.poses query.entry.rule
        query.entry.count query.entry.weights.now (length set.entry.items.now) (length set.entry.scores.now)
        lengths.picks lengths.lows lengths.highs lengths.tally work) }
    ensures passes { OnOk result (shape_of set.entry.lists set.entry.poses query.entry.rule
        query.entry.count query.entry.weights.now (length set.entry.items.now) (length set.entry.scores.now)
        lengths.picks lengths.lows lengths.highs lengths.tally work ≡ accepted) }
{
    if lists::wrong_size(set.lists, set.poses) {
        return Err(Refusal::WrongSize);
    }
    if wrong_k(query.count, set.poses) {
        return Err(Refusal::WrongCount);
    }
    if 2 < query.rule {
        return Err(Refusal::WrongRule);
    }
    if wrong_weights(set.lists, query.weights) {
        return Err(Refusal::WrongWeights);
    }
    let size = set.lists * set.poses;
    if set.items.len() < size || set.scores.len() < size {
        return Err(Refusal::ShortLists);
    }
    if no_room(query.count, size, lengths, work) {
        return Err(Refusal::ShortRoom);
    }
    Ok(())
}

/// All tests of a search: its own, then the list check, which fills the work slice.
pub fn admit(set: PoseSet, query: Query, lengths: Lengths, work: &mut [u16]) -> Result<(), Refusal>
    ensures { Admitted set.entry.lists set.entry.poses query.entry.rule query.entry.count
        query.entry.weights.now set.entry.items.now set.entry.scores.now lengths.picks lengths.lows
        lengths.highs lengths.tally work.old result work.new }
{
    shape(set, query, lengths, work.len())?;
    lists::check_lists(set, work)
}
