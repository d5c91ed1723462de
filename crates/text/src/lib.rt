//! The previewer's lines, appended to lent bytes in the way of `fields`.
#![tactic(auto)]

pub mod refusals;

ghost use Rattle.std.specs.Prelude.{◌≡◌, ◌+◌, ◌*◌, ◌≤◌, length};
ghost use Rattle.model.specs.Program.{line as Program·line};
ghost use Rattle.poses.specs.Methods.{method_number};
ghost use Rattle.fields.specs.Clauses.{Appended};
ghost use Rattle.listing.specs.Clauses.{places_at, LineRoom};
ghost use Rattle.text.specs.Names.{name_at};

use fields::Text;
use meeting::Found;
use poses::methods::Method;
pub use refusals::{refused_line, refused_numbers};

// The name that a search's line begins with.
#[tactic(auto, unfolding(crate::specs::Names::name_at))]
fn name(method: Method) -> &'static [u8]
    ensures { result.now ≡ name_at (method_number method) }
{
    match method {
        Method::Ta => b"TA",
        Method::Bpa => b"BPA",
        Method::Bpa2 => b"BPA2",
        Method::Nra => b"NRA",
    }
}

/// A line of a name, four counts, and the k places of a shortlist.
#[tactic(auto, using(fields::specs::Appending::appended_length))]
pub fn named_line(
    name: &[u8],
    found: Found,
    k: usize,
    picks: &[u16],
    lows: &[u32],
    highs: &[u32],
    text: &mut Text,
)
    requires { LineRoom (length name.now + 45 + 28 * k) k picks.now lows.now highs.now
        text.old.out.now text.old.end }
    ensures same { text.new.out.ghost_name ≡ text.old.out.ghost_name }
    ensures text { Appended (Program·line name.now found.rows found.sorted.0 found.direct.0
        found.random.0 (places_at picks.now lows.now highs.now k)) text.old.out.now text.old.end
        text.new.out.now text.new.end }
    ensures short { text.new.end ≤ text.old.end + (length name.now + 45 + 28 * k) }
{
    text.word(name);
    text.spaced(found.rows);
    text.spaced(found.sorted.0);
    text.spaced(found.direct.0);
    text.spaced(found.random.0);
    listing::places(k, picks, lows, highs, text);
    text.put(b'\n');
}

/// The line of a search: its name, its four counts, and the k places of its shortlist.
pub fn line(
    method: Method,
    found: Found,
    k: usize,
    picks: &[u16],
    lows: &[u32],
    highs: &[u32],
    text: &mut Text,
)
    requires { LineRoom (length (name_at (method_number method)) + 45 + 28 * k) k picks.now lows.now
        highs.now text.old.out.now text.old.end }
    ensures same { text.new.out.ghost_name ≡ text.old.out.ghost_name }
    ensures text { Appended (Program·line (name_at (method_number method)) found.rows found.sorted.0
        found.direct.0 found.random.0 (places_at picks.now lows.now highs.now k)) text.old.out.now
        text.old.end text.new.out.now text.new.end }
    ensures short { text.new.end
        ≤ text.old.end + (length (name_at (method_number method)) + 45 + 28 * k) }
{
    named_line(name(method), found, k, picks, lows, highs, text);
}
