// The order of the shortlist: by low falling, then high falling, then item rising. Where an item belongs in it.
ghost use Rattle.std.specs.Prelude.{◌≡◌, ◌≤◌, length};
ghost use Rattle.meeting.specs.Clauses.{ahead_of, Seated};

// Item d with its low and high stands before item e with its own.
#[tactic(auto, unfolding(crate::specs::Clauses::ahead_of))]
fn ahead(d: u16, low: u32, high: u32, e: u16, lo: u32, hi: u32) -> bool
    ensures { result ≡ ahead_of d low high e lo hi }
{
    lo < low || low == lo && (hi < high || high == hi && d < e)
}

// Where item d belongs among the first `filled`: behind the last that it does not stand before. Most
// items belong at the end, so the walk starts there.
pub fn seat(
    d: u16,
    low: u32,
    high: u32,
    filled: usize,
    picks: &[u16],
    lows: &[u32],
    highs: &[u32],
) -> usize
    requires { (filled ≤ length picks.now) × (filled ≤ length lows.now)
        × (filled ≤ length highs.now) }
    ensures { Seated d low high filled picks.now lows.now highs.now result }
{
    for j in (0..filled).rev() {
        if !ahead(d, low, high, picks[j], lows[j], highs[j]) {
            return j + 1;
        }
    }
    0
}
