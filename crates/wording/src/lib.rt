//! The line of what a search gives back: its name, counts and places, or a refusal.
#![tactic(auto)]

ghost use Rattle.std.specs.Prelude.{◌≡◌};
ghost use Rattle.poses.specs.Methods.{method_number};
ghost use Rattle.listing.specs.Clauses.{places_at};
ghost use Rattle.answers.specs.Clauses.{answer_of};
ghost use Rattle.wording.specs.Clauses.{AnswerRoom, AnswerWritten};

use answers::Answer;
use fields::Text;
use meeting::Found;
use poses::methods::Method;
use poses::refusals::Refusal;

/// The line of an answer in numbers: a search's with its k places, or a refusal's.
pub fn told_line(
    method: Method,
    answer: Answer,
    k: usize,
    picks: &[u16],
    lows: &[u32],
    highs: &[u32],
    text: &mut Text,
)
    requires { AnswerRoom answer k picks.now lows.now highs.now text.old.out.now text.old.end }
    ensures same { text.new.out.ghost_name ≡ text.old.out.ghost_name }
    ensures text { AnswerWritten (method_number method) answer (places_at picks.now lows.now highs.now k)
        text.old.out.now text.old.end text.new.out.now text.new.end }
{
    if answer.number != 0 {
        text::refused_numbers(answer.number, answer.list, answer.position, text);
        return;
    }
    let found = Found {
        rows: answer.rows,
        sorted: answer.sorted,
        direct: answer.direct,
        random: answer.random,
    };
    text::line(method, found, k, picks, lows, highs, text);
}

/// The line of what a search gives back.
pub fn answer_line(
    method: Method,
    found: Result<Found, Refusal>,
    k: usize,
    picks: &[u16],
    lows: &[u32],
    highs: &[u32],
    text: &mut Text,
)
    requires { AnswerRoom (answer_of found) k picks.now lows.now highs.now text.old.out.now text.old.end }
    ensures same { text.new.out.ghost_name ≡ text.old.out.ghost_name }
    ensures text { AnswerWritten (method_number method) (answer_of found) (places_at picks.now lows.now highs.now k)
        text.old.out.now text.old.end text.new.out.now text.new.end }
{
    told_line(method, Answer::from(found), k, picks, lows, highs, text);
}
