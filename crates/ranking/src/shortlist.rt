// The shortlist in its three slices: items, lows and highs.
ghost use Rattle.meeting.specs.Shortlist.{Keeps, Inserted};

use meeting::{seats, sliding};

// Item d into the first k, and how many there are then. Seat k means that it is not kept.
#[tactic(auto, using(meeting::specs::Keeping::stays_out, meeting::specs::Keeping::slid_in))]
pub fn keep(
    d: u16,
    low: u32,
    high: u32,
    k: usize,
    filled: usize,
    picks: &mut [u16],
    lows: &mut [u32],
    highs: &mut [u32],
) -> usize
    requires { Keeps k filled picks.old lows.old highs.old }
    ensures { Inserted d low high k filled picks.old lows.old
        highs.old result picks.new lows.new highs.new }
{
    let at = seats::seat(d, low, high, filled, picks, lows, highs);
    if at == k {
        return filled;
    }
    let last = sliding::last_place(filled, k);
    sliding::slide_places(picks, lows, at, last, d, low);
    sliding::slide_scores(highs, at, last, high);
    last + 1
}
