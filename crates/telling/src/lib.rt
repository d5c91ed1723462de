//! A search's answer told as C is told it: its numbers in a lent array.
#![tactic(auto)]

ghost use Rattle.poses.specs.Methods.{method_number};
ghost use Rattle.poses.specs.Sets.{lent_of, IsSameRoom};
ghost use Rattle.running.specs.Clauses.{search_at};
ghost use Rattle.answering.specs.Answered.{KeepsLengths};
ghost use Rattle.telling.specs.Told.{AnswerTold, SearchTold};

use answers::Answer;
use poses::methods::Method;
use poses::{PoseSet, Query, Room};

// The seven numbers of a search's answer, in the order of the header; returns the first.
fn tell(a: Answer, told: &mut [u32; 7]) -> u32
    ensures { AnswerTold a result told.new }
{
    *told = [
        a.number, a.list, a.position, a.rows, a.sorted.0, a.direct.0, a.random.0,
    ];
    a.number
}

/// The search of a name, and its answer told.
pub fn searched(
    method: Method,
    set: PoseSet,
    query: Query,
    room: &mut Room,
    told: &mut [u32; 7],
) -> u32
    ensures same { IsSameRoom room.old room.new }
    ensures lengths { KeepsLengths room.old room.new }
    ensures answer { SearchTold (search_at (method_number method)) (lent_of set.entry query.entry room.old) result told.new
        room.new.picks.now room.new.lows.now room.new.highs.now room.new.tally.now room.new.work.now }
{
    tell(
        Answer::from(answering::search(method, set, query, room)),
        told,
    )
}
