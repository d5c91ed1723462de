//! The lines of the four searches: each search run, and what it gives back as text.
#![tactic(auto)]

ghost use Rattle.std.specs.Prelude.{◌≡◌, ◌+◌, ◌*◌, ◌≤◌, length};
ghost use Rattle.poses.specs.Methods.{method_number};
ghost use Rattle.poses.specs.Sets.{lent_of, IsSameRoom};
ghost use Rattle.listing.specs.Clauses.{places_at};
ghost use Rattle.answers.specs.Clauses.{answer_of};
ghost use Rattle.answering.specs.Answered.{KeepsLengths};
ghost use Rattle.wording.specs.Clauses.{line_room, AnswerRoom, AnswerWritten};
ghost use Rattle.lines.specs.Clauses.{LineMade, Lines};

use fields::Text;
use meeting::Found;
use poses::methods::Method;
use poses::refusals::Refusal;
use poses::{PoseSet, Query, Room};

// The line of what a search gives back. The shortlist's slices are lent on as the room lends them, and only read.
fn written(
    method: Method,
    found: Result<Found, Refusal>,
    k: usize,
    picks: &mut [u16],
    lows: &mut [u32],
    highs: &mut [u32],
    text: &mut Text,
)
    requires { AnswerRoom (answer_of found) k picks.old lows.old highs.old text.old.out.now text.old.end }
    ensures same { text.new.out.ghost_name ≡ text.old.out.ghost_name }
    ensures read { (picks.new ≡ picks.old) × (lows.new ≡ lows.old) × (highs.new ≡ highs.old) }
    ensures text { AnswerWritten (method_number method) (answer_of found) (places_at picks.old lows.old highs.old k)
        text.old.out.now text.old.end text.new.out.now text.new.end }
{
    wording::answer_line(method, found, k, picks, lows, highs, text);
}

// One search, and its line.
fn one_line(
    method: Method,
    set: PoseSet,
    query: Query,
    room: &mut Room,
    text: &mut Text,
) -> Result<(), Refusal>
    requires { text.old.end + line_room ≤ length text.old.out.now }
    ensures same { IsSameRoom room.old room.new }
    ensures lengths { KeepsLengths room.old room.new }
    ensures same_text { text.new.out.ghost_name ≡ text.old.out.ghost_name }
    ensures line { LineMade (method_number method) (lent_of set.entry query.entry room.old) text.old.out.now
        text.old.end result text.new.end text.new.out.now }
{
    let found = answering::search(method, set, query, room);
    written(
        method,
        found,
        query.count,
        room.picks,
        room.lows,
        room.highs,
        text,
    );
    match found {
        Ok(_) => Ok(()),
        Err(refusal) => Err(refusal),
    }
}

/// The lines of the four searches, in the order TA, BPA, BPA2, NRA. A refusal is the only line: all four make the
/// same tests, so it is the first that tells it.
pub fn search_lines(set: PoseSet, query: Query, room: &mut Room, text: &mut Text)
    requires { (text.old.end ≡ 0) × (4 * line_room ≤ length text.old.out.now) }
    ensures same { IsSameRoom room.old room.new }
    ensures lengths { KeepsLengths room.old room.new }
    ensures same_text { text.new.out.ghost_name ≡ text.old.out.ghost_name }
    ensures lines { Lines (lent_of set.entry query.entry room.old) text.old.out.now text.new.end text.new.out.now }
{
    for number in 0..4 {
        if let Err(_) = one_line(Method::from(number), set, query, room, text) {
            return;
        }
    }
}
