// The run of a search, once its tests are passed: TA, BPA, BPA2 or NRA.
#![tactic(auto)]

ghost use Rattle.std.specs.Prelude.{◌≤◌};
ghost use Rattle.poses.specs.Methods.{method_number};
ghost use Rattle.poses.specs.Sets.{set_of};
ghost use Rattle.meeting.specs.Clauses.{query_of, Room};
ghost use Rattle.running.specs.Clauses.{Runs};

use judging::{Bpa, Bpa2, Ta};
use meeting::{Accepted, Found};
use poses::methods::Method;
use scored::Scored;

// TA, BPA or BPA2, and the highs.
fn by_score<M: Scored>(
    accepted: Accepted,
    k: usize,
    picks: &mut [u16],
    lows: &mut [u32],
    highs: &mut [u32],
    tally: &mut [u8],
) -> Found
    requires by_score { M.number ≤ 2 }
    requires room { Room (set_of accepted.reading.set) k picks.old lows.old highs.old tally.old }
    ensures { Runs M.number (set_of accepted.entry.reading.set) (query_of accepted.entry.reading) k
        picks.old lows.old highs.old tally.old result picks.new lows.new highs.new tally.new }
{
    let found = scored::run::<M>(accepted, k, picks, lows, tally);
    completing::repeat_lows(k, lows, highs);
    found
}

/// A search over an accepted set and query: the first k items with their lows and highs, and the tally, over what
/// was lent.
pub fn run(
    method: Method,
    accepted: Accepted,
    k: usize,
    picks: &mut [u16],
    lows: &mut [u32],
    highs: &mut [u32],
    tally: &mut [u8],
) -> Found
    requires { Room (set_of accepted.reading.set) k picks.old lows.old highs.old tally.old }
    ensures { Runs (method_number method) (set_of accepted.entry.reading.set)
        (query_of accepted.entry.reading) k picks.old lows.old highs.old tally.old result picks.new
        lows.new highs.new tally.new }
{
    match method {
        Method::Ta => by_score::<Ta>(accepted, k, picks, lows, highs, tally),
        Method::Bpa => by_score::<Bpa>(accepted, k, picks, lows, highs, tally),
        Method::Bpa2 => by_score::<Bpa2>(accepted, k, picks, lows, highs, tally),
        Method::Nra => {
            let rows = bounded::run_nra(accepted, k, picks, lows, highs, tally);
            completing::only_sorted(accepted.reading.set.lists, rows)
        }
    }
}
