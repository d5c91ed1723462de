// NRA: the search by bounds. Once the row after which it stops is known, its shortlist and its tally are
// written once.
#![tactic(auto)]

ghost use Rattle.poses.specs.Sets.{set_of};
ghost use Rattle.meeting.specs.Clauses.{query_of, Room};
ghost use Rattle.bounded.specs.Clauses.{Finished};

use ending::stopping_row;
use halting::rows::Rows;
use leading::Ledger;
use meeting::Accepted;
use ranking::rank;
use tallying::fill_tally;

// The run of NRA: the shortlist and the tally are written, and the answer is the row after which it stops.
pub fn run_nra(
    accepted: Accepted,
    k: usize,
    picks: &mut [u16],
    lows: &mut [u32],
    highs: &mut [u32],
    tally: &mut [u8],
) -> u32
    requires { Room (set_of accepted.reading.set) k picks.old lows.old highs.old tally.old }
    ensures { Finished (set_of accepted.entry.reading.set) (query_of accepted.entry.reading) k result
        picks.old lows.old highs.old tally.old picks.new lows.new highs.new tally.new }
{
    let set = accepted.reading.set;
    let rows = Rows {
        reading: accepted.reading,
    };
    let mut marks: [u32; 1024] = [0; 1024];
    let mut met: [u16; 1024] = [0; 1024];
    // The k greatest marks, which are 0 before any row, are lent the first part of the highs: no high is written
    // until `rank`.
    let tops = &mut highs[..k];
    tops.fill(0);
    let mut ledger = Ledger {
        marks: &mut marks,
        tops,
        met: &mut met,
        count: 0,
    };
    let row = stopping_row(rows, k, &mut ledger);
    let top = ledger.tops[k - 1];
    let count = ledger.count;
    rank(rows, row, k, top, &marks, &met[..count], picks, lows, highs);
    fill_tally(row, set.lists, set.poses, tally);
    row as u32
}
