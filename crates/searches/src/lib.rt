//! The four searches by name. What a caller of them names beside is handed on: the search of a method, what a
//! search is lent, and its answer in numbers.
//!
//! Each answers every call. `Ok` has the rows or rounds and the accesses by kind, with shortlist, tally and places in
//! the room (docs/SPECIFICATION.md, "What a search gives back"). `Err` is the first refusal of 1 to 9 in their order
//! ("Refusals"): then the room is as lent, but for the work slice, which is zeros where the lists are refused.
#![tactic(auto)]

ghost use Rattle.model.specs.Searches.{TA, BPA, BPA2, NRA};
ghost use Rattle.poses.specs.Sets.{lent_of, IsSameRoom};
ghost use Rattle.answers.specs.Clauses.{answer_of};
ghost use Rattle.answering.specs.Answered.{Searched, KeepsLengths};

pub use answering::search;
pub use answers::Answer;
pub use meeting::{Direct, Found, Random, Sorted};
pub use poses::methods::Method;
pub use poses::refusals::{Refusal, Spot};
pub use poses::{PoseSet, Query, Room};

/// The threshold algorithm: rows by sorted access, each item found looked up in every other list.
pub fn ta(set: PoseSet, query: Query, room: &mut Room) -> Result<Found, Refusal>
    ensures same { IsSameRoom room.old room.new }
    ensures lengths { KeepsLengths room.old room.new }
    ensures answer { Searched TA (lent_of set.entry query.entry room.old) (answer_of result)
        room.new.picks.now room.new.lows.now room.new.highs.now room.new.tally.now room.new.work.now }
{
    search(Method::Ta, set, query, room)
}

/// The best position algorithm: TA with the threshold at the lists' best positions.
pub fn bpa(set: PoseSet, query: Query, room: &mut Room) -> Result<Found, Refusal>
    ensures same { IsSameRoom room.old room.new }
    ensures lengths { KeepsLengths room.old room.new }
    ensures answer { Searched BPA (lent_of set.entry query.entry room.old) (answer_of result)
        room.new.picks.now room.new.lows.now room.new.highs.now room.new.tally.now room.new.work.now }
{
    search(Method::Bpa, set, query, room)
}

/// BPA2: each round reads the first position of a list that was not visited.
pub fn bpa2(set: PoseSet, query: Query, room: &mut Room) -> Result<Found, Refusal>
    ensures same { IsSameRoom room.old room.new }
    ensures lengths { KeepsLengths room.old room.new }
    ensures answer { Searched BPA2 (lent_of set.entry query.entry room.old) (answer_of result)
        room.new.picks.now room.new.lows.now room.new.highs.now room.new.tally.now room.new.work.now }
{
    search(Method::Bpa2, set, query, room)
}

/// NRA: sorted accesses alone, and bounds of each item's score.
pub fn nra(set: PoseSet, query: Query, room: &mut Room) -> Result<Found, Refusal>
    ensures same { IsSameRoom room.old room.new }
    ensures lengths { KeepsLengths room.old room.new }
    ensures answer { Searched NRA (lent_of set.entry query.entry room.old) (answer_of result)
        room.new.picks.now room.new.lows.now room.new.highs.now room.new.tally.now room.new.work.now }
{
    search(Method::Nra, set, query, room)
}
