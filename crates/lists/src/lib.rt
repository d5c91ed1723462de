//! The list check and the place table: each item's position in each list is noted in the work slice, or the first refusal in reading
//! order is found. The types that a caller names beside are handed on.
#![tactic(auto)]

ghost use Rattle.std.specs.Prelude.{◌≡◌};
ghost use Rattle.model.specs.Refusals.{wrong_size};
ghost use Rattle.poses.specs.Sets.{set_of};
ghost use Rattle.lists.specs.Clauses.{Lying, ListsNoted, ListsChecked};

use entries::walk_list;
use passing::note_whole;
pub use poses::PoseSet;
pub use poses::refusals::{Refusal, Spot};

/// Test 1: m is not 1 to 8 or n not 1 to 1,024.
#[tactic(auto, unfolding(model::specs::Refusals::wrong_size))]
pub fn wrong_size(m: usize, n: usize) -> bool
    ensures { result ≡ wrong_size m n }
{
    !(1..=8).contains(&m) || !(1..=1024).contains(&n)
}

// List by list: each has its own row of the work slice. The first refusal ends it.
fn walk_lists(set: PoseSet, work: &mut [u16]) -> Result<(), Refusal>
    requires { Lying (set_of set) work.old }
    ensures { ListsNoted (set_of set.entry) work.old result work.new }
{
    let n = set.poses;
    for i in 0..set.lists {
        let from = i * n;
        walk_list(i, set, &mut work[from..from + n])?;
    }
    Ok(())
}

// All lists at once where they pass. Where they do not, a walk finds the refusal.
fn note_lists(set: PoseSet, work: &mut [u16]) -> Result<(), Refusal>
    requires { Lying (set_of set) work.old }
    ensures { ListsNoted (set_of set.entry) work.old result work.new }
{
    let size = set.lists * set.poses;
    if note_whole(set, &mut work[..size]) {
        return Ok(());
    }
    walk_lists(set, work)
}

/// The list check by itself: tests 1, 5 and 6, then 7 to 9 at each position. After 1, 5, 6 the work slice
/// is as lent, after 7 to 9 its first m x n entries are 0, and of accepted lists it has the positions.
#[tactic(auto, using(laws::specs::Accepted::sized, laws::specs::Accepted::size_fits), unfolding(model::specs::Answers::checked, model::specs::Answers::checked_work, model::specs::Answers::work_after, model::specs::Refusals::check_verdict, model::specs::Refusals::check_shape, model::specs::Refusals::no_lists, model::specs::Refusals::short))]
pub fn check_lists(set: PoseSet, work: &mut [u16]) -> Result<(), Refusal>
    ensures { ListsChecked (set_of set.entry) work.old result work.new }
{
    if wrong_size(set.lists, set.poses) {
        return Err(Refusal::WrongSize);
    }
    let size = set.lists * set.poses;
    if set.items.len() < size || set.scores.len() < size {
        return Err(Refusal::ShortLists);
    }
    if work.len() < size {
        return Err(Refusal::ShortRoom);
    }
    let found = note_lists(set, work);
    if found.is_err() {
        work[..size].fill(0);
    }
    found
}
