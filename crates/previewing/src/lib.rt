//! The previewer's text: what its program prints for the bytes that it is given.
#![tactic(auto)]

ghost use Rattle.std.specs.Prelude.{◌*◌, ◌≤◌, length};
ghost use Rattle.model.specs.Program.{refused_line};
ghost use Rattle.poses.specs.Refusals.{told_of};
ghost use Rattle.poses.specs.Sets.{lent_of, IsSameRoom};
ghost use Rattle.answering.specs.Answered.{KeepsLengths};
ghost use Rattle.fields.specs.Clauses.{Appended};
ghost use Rattle.wording.specs.Clauses.{line_room};
ghost use Rattle.lines.specs.Clauses.{Lines};
ghost use Rattle.previewing.specs.Clauses.{Reading, Roomy, Previewed};

use fields::Text;
use lines::search_lines;
use poses::refusals::Refusal;
use poses::{PoseSet, Query, Room};
use records::QueryRead;

// The line of a refusal alone, at the start of `out`, and how many bytes it is.
fn refused(refusal: Refusal, out: &mut [u8]) -> usize
    requires { 41 ≤ length out.old }
    ensures { Appended (refused_line (told_of refusal).number (told_of refusal).list (told_of refusal).position)
        out.old 0 out.new result }
{
    let mut text = Text { out, end: 0 };
    text::refused_line(refusal, &mut text);
    text.end
}

// The lines of the four searches, at the start of `out`, and how many bytes they are.
fn searched(set: PoseSet, query: Query, room: &mut Room, out: &mut [u8]) -> usize
    requires { 4 * line_room ≤ length out.old }
    ensures same { IsSameRoom room.old room.new }
    ensures lengths { KeepsLengths room.old room.new }
    ensures text { Lines (lent_of set.entry query.entry room.old) out.old result out.new }
{
    let mut text = Text { out, end: 0 };
    search_lines(set, query, room, &mut text);
    text.end
}

// The text after a query that was read: the lists are read from the bytes that follow it, then the searches run.
fn after_query(
    query: QueryRead,
    bytes: &[u8],
    items: &mut [u16],
    scores: &mut [u16],
    room: &mut Room,
    out: &mut [u8],
) -> usize
    requires { Reading bytes.now query items.old scores.old room.old.picks.now room.old.lows.now
        room.old.highs.now room.old.tally.now room.old.work.now out.old }
    ensures same { IsSameRoom room.old room.new }
    ensures lengths { KeepsLengths room.old room.new }
    ensures text { Previewed bytes.now out.old result out.new }
{
    let start = query.bytes;
    let lists = &bytes[start..];
    match records::read_lists(lists, items, scores) {
        Ok(read) => {
            let size = read.m * read.n;
            let set = PoseSet {
                lists: read.m,
                poses: read.n,
                items: &items[..size],
                scores: &scores[..size],
            };
            let asked = Query {
                rule: query.rule,
                count: query.k,
                weights: records::chosen_weights(bytes, lists),
            };
            searched(set, asked, room, out)
        }
        Err(refusal) => refused(refusal, out),
    }
}

/// Writes what the program prints for `bytes` to the start of `out`, and answers how many bytes that is. The query
/// is read first, then the lists, then the searches run; nothing is in `out` that a later refusal would take back.
pub fn preview(
    bytes: &[u8],
    items: &mut [u16],
    scores: &mut [u16],
    room: &mut Room,
    out: &mut [u8],
) -> usize
    requires { Roomy items.old scores.old room.old.picks.now room.old.lows.now room.old.highs.now
        room.old.tally.now room.old.work.now out.old }
    ensures same { IsSameRoom room.old room.new }
    ensures lengths { KeepsLengths room.old room.new }
    ensures text { Previewed bytes.now out.old result out.new }
{
    let query = match records::read_query(bytes) {
        Ok(query) => query,
        Err(refusal) => return refused(refusal, out),
    };
    after_query(query, bytes, items, scores, room, out)
}
