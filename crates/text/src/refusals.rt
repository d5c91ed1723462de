//! The line of a refusal.
ghost use Rattle.std.specs.Prelude.{◌≡◌, ◌+◌, ◌≤◌, length};
ghost use Rattle.model.specs.Program.{refused_line};
ghost use Rattle.poses.specs.Refusals.{told_of};
ghost use Rattle.fields.specs.Clauses.{Appended};

use fields::Text;
use poses::refusals::Refusal;

/// `REFUSED` and a refusal's three numbers, whatever they are.
#[tactic(auto, using(fields::specs::Appending::appended_length))]
pub fn refused_numbers(number: u32, list: u32, position: u32, text: &mut Text)
    requires { text.old.end + 41 ≤ length text.old.out.now }
    ensures same { text.new.out.ghost_name ≡ text.old.out.ghost_name }
    ensures text { Appended (refused_line number list position) text.old.out.now text.old.end
        text.new.out.now text.new.end }
    ensures short { text.new.end ≤ text.old.end + 41 }
{
    text.word(b"REFUSED");
    text.spaced(number);
    text.spaced(list);
    text.spaced(position);
    text.put(b'\n');
}

/// The line of a refusal: `REFUSED`, and its number, list and position.
pub fn refused_line(refusal: Refusal, text: &mut Text)
    requires { text.old.end + 41 ≤ length text.old.out.now }
    ensures same { text.new.out.ghost_name ≡ text.old.out.ghost_name }
    ensures text { Appended (refused_line (told_of refusal).number (told_of refusal).list
        (told_of refusal).position) text.old.out.now text.old.end text.new.out.now text.new.end }
    ensures short { text.new.end ≤ text.old.end + 41 }
{
    refused_numbers(refusal.number(), refusal.list(), refusal.position(), text);
}
