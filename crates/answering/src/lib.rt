//! A search of whatever is lent: all tests, then the run.
#![tactic(auto)]

ghost use Rattle.std.specs.Prelude.{ℕ, ◌≤◌, get_or};
ghost use Rattle.poses.specs.Methods.{method_number};
ghost use Rattle.poses.specs.Sets.{lent_of, IsSameRoom};
ghost use Rattle.running.specs.Clauses.{search_at};
ghost use Rattle.admission.specs.Clauses.{lent_with};
ghost use Rattle.answers.specs.Clauses.{answer_of};
ghost use Rattle.answering.specs.Answered.{Searched, KeepsLengths};

use meeting::{Accepted, Found, Reading};
use poses::methods::Method;
use poses::refusals::Refusal;
use poses::rules::Rule;
use poses::{PoseSet, Query, Room};
use testing::Lengths;

// A score is at most 65,535, by its type: what a run asks of all scores. It costs nothing when it runs.
fn scores_fit(scores: &[u16])
    ensures { (j : ℕ) → get_or scores.now j 0 ≤ 65535 }
{}

/// The search over the slices of a room, lent one by one: for a caller that lends parts of longer ones.
pub fn searched(
    method: Method,
    set: PoseSet,
    query: Query,
    picks: &mut [u16],
    lows: &mut [u32],
    highs: &mut [u32],
    tally: &mut [u8],
    work: &mut [u16],
) -> Result<Found, Refusal>
    ensures { Searched (search_at (method_number method)) (lent_with set.entry.lists set.entry.poses
        query.entry.rule query.entry.count query.entry.weights.now set.entry.items.now
        set.entry.scores.now picks.old lows.old highs.old tally.old work.old) (answer_of result)
        picks.new lows.new highs.new tally.new work.new }
{
    let lengths = Lengths {
        picks: picks.len(),
        lows: lows.len(),
        highs: highs.len(),
        tally: tally.len(),
    };
    admission::admit(set, query, lengths, work)?;
    scores_fit(set.scores);
    let weights = testing::decode(set.lists, query.weights);
    let accepted = Accepted {
        reading: Reading {
            set,
            rule: Rule::from(query.rule),
            weights: &weights,
            places: work,
        },
    };
    Ok(running::run(method, accepted, query.count, picks, lows, highs, tally))
}

/// The search of a name, with the tests before it. It answers every call: the first test that refuses ends it,
/// and then only the work slice may be written (to zeros, where the lists are refused). What is found is what
/// the search's definition says, and so is what it leaves in the room.
pub fn search(method: Method, set: PoseSet, query: Query, room: &mut Room) -> Result<Found, Refusal>
    ensures same { IsSameRoom room.old room.new }
    ensures lengths { KeepsLengths room.old room.new }
    ensures answer { Searched (search_at (method_number method)) (lent_of set.entry query.entry room.old)
        (answer_of result) room.new.picks.now room.new.lows.now room.new.highs.now
        room.new.tally.now room.new.work.now }
{
    searched(
        method, set, query, room.picks, room.lows, room.highs, room.tally, room.work,
    )
}
