// The row after which NRA stops: rows are read one after the other, and after each its test is asked.
#![tactic(auto)]

ghost use Rattle.meeting.specs.Clauses.{view_of};
ghost use Rattle.leading.specs.Clauses.{Leading, IsSameLedger};
ghost use Rattle.ending.specs.Clauses.{Sought, Stopped};

use blocking::obstacle;
use halting::rows::Rows;
use leading::Ledger;

// The row after which NRA stops: the first of 1 to n whose test holds, else n. The ledger, which is that before
// any row, becomes the one after it.
pub fn stopping_row(rows: Rows, k: usize, ledger: &mut Ledger) -> usize
    requires { Sought (view_of rows.reading) rows.reading.set.items.now k
        × Leading (view_of rows.reading) 0 k ledger.old.marks.now ledger.old.tops.now ledger.old.met.now
        ledger.old.count }
    ensures same { IsSameLedger ledger.old ledger.new }
    ensures stops { Stopped (view_of rows.entry.reading) k result ledger.new.marks.now ledger.new.tops.now
        ledger.new.met.now ledger.new.count }
{
    let mut at = 0;
    for p in 1..=rows.reading.set.poses {
        ledger.read_row(rows, p, k);
        let top = ledger.tops[k - 1];
        match obstacle(rows, at, p, k, top, ledger.marked(), ledger.listed()) {
            None => return p,
            Some(entry) => at = entry,
        }
    }
    rows.reading.set.poses
}
