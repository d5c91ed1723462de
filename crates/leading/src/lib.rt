// What is kept as rows are read: each item's mark, the k greatest of them and the items met. No item but those
// of the row is looked at for it.
#![tactic(auto)]

ghost use Rattle.std.specs.Prelude.{◌≡◌, length, take, ◌+◌, ◌-◌, ◌≤◌, ◌<◌};
ghost use Rattle.meeting.specs.Clauses.{view_of};
ghost use Rattle.leading.specs.Clauses.{Leading, ReadableRow, Partway, IsSameLedger};

use halting::rows::Rows;
use raising::{gather, mark, raise};

/// What is kept as rows are read, in slices that are lent.
#[derive(Drop)]
pub struct Ledger<'a> {
    /// Each item's mark: its low and one more, or 0 where it is not met.
    pub marks: &'a mut [u32],
    /// The k greatest of them, falling.
    pub tops: &'a mut [u32],
    /// The items met, in the order in which they were; no entry past the first `count` counts.
    pub met: &'a mut [u16],
    /// How many items are met.
    pub count: usize,
}

impl Ledger<'_> {
    // The item that stands at row p of list i: its mark, the k greatest and the items met.
    fn read_entry(&mut self, rows: Rows, i: usize, p: usize, k: usize)
        requires { ReadableRow (view_of rows.reading) rows.reading.set.items.now p k
            × (i < rows.reading.set.lists)
            × Partway (view_of rows.reading) rows.reading.set.items.now p i k self.old.marks.now
            self.old.tops.now self.old.met.now self.old.count }
        ensures same { IsSameLedger self.old self.new }
        ensures read { Partway (view_of rows.entry.reading) rows.entry.reading.set.items.now p (i + 1) k
            self.new.marks.now self.new.tops.now self.new.met.now self.new.count }
        ensures grows { self.old.count ≤ self.new.count }
    {
        let set = rows.reading.set;
        let item = set.items[i * set.poses + p - 1];
        let d = usize::from(item);
        let new = mark(rows, d, p);
        let old = self.marks[d];
        self.marks[d] = new;
        raise(k, old, new, self.tops);
        self.count = gather(item, old, self.count, self.met);
    }

    /// Row p: the marks after p - 1 rows, the k greatest of them and the items met become those after p rows.
    pub fn read_row(&mut self, rows: Rows, p: usize, k: usize)
        requires { ReadableRow (view_of rows.reading) rows.reading.set.items.now p k
            × Leading (view_of rows.reading) (p - 1) k self.old.marks.now self.old.tops.now
            self.old.met.now self.old.count }
        ensures same { IsSameLedger self.old self.new }
        ensures read { Leading (view_of rows.entry.reading) p k self.new.marks.now self.new.tops.now
            self.new.met.now self.new.count }
        ensures grows { self.old.count ≤ self.new.count }
    {
        for i in 0..rows.reading.set.lists {
            self.read_entry(rows, i, p, k);
        }
    }

    /// The items met, in the order in which they were.
    pub fn listed(&self) -> &[u16]
        requires { self.now.count ≤ length self.now.met.now }
        ensures { result.now ≡ take self.now.count self.now.met.now }
    {
        &self.met[..self.count]
    }

    /// Each item's mark.
    pub fn marked(&self) -> &[u32]
        ensures { result.now ≡ self.now.marks.now }
    {
        &*self.marks
    }
}
