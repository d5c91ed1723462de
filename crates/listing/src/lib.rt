//! The places of a shortlist as text, appended to lent bytes in the way of `fields`.
#![tactic(auto)]

ghost use Rattle.std.specs.Prelude.{◌≡◌, ◌+◌, ◌*◌, ◌≤◌, length};
ghost use Rattle.model.specs.Program.{places_text};
ghost use Rattle.fields.specs.Clauses.{Appended};
ghost use Rattle.listing.specs.Clauses.{places_at, LineRoom};
ghost use Rattle.listing.specs.Places.{place_text};

use fields::Text;

// A place of the shortlist: a space, then item:low:high. An item has at most five digits.
#[tactic(auto, using(fields::specs::Appending::appended_length, crate::specs::Places::spaced_narrow))]
fn place(item: u16, low: u32, high: u32, text: &mut Text)
    requires { text.old.end + 28 ≤ length text.old.out.now }
    ensures same { text.new.out.ghost_name ≡ text.old.out.ghost_name }
    ensures text { Appended (place_text item low high) text.old.out.now text.old.end text.new.out.now
        text.new.end }
    ensures short { text.new.end ≤ text.old.end + 28 }
{
    text.spaced(u32::from(item));
    text.coloned(low);
    text.coloned(high);
}

/// The first k places of the shortlist. They lie in three slices, as the host lends them.
#[tactic(auto, using(fields::specs::Appending::appended_length))]
pub fn places(k: usize, picks: &[u16], lows: &[u32], highs: &[u32], text: &mut Text)
    requires { LineRoom (28 * k) k picks.now lows.now highs.now text.old.out.now text.old.end }
    ensures same { text.new.out.ghost_name ≡ text.old.out.ghost_name }
    ensures text { Appended (places_text (places_at picks.now lows.now highs.now k)) text.old.out.now
        text.old.end text.new.out.now text.new.end }
    ensures short { text.new.end ≤ text.old.end + 28 * k }
{
    for i in 0..k {
        place(picks[i], lows[i], highs[i], text);
    }
}
