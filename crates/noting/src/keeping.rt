// An item put into the shortlist, and the score in its last place.
ghost use Rattle.std.specs.Prelude.{◌≡◌, ◌-◌, slice_index};
ghost use Rattle.meeting.specs.Shortlist.{Inserted};
ghost use Rattle.noting.specs.Shortlists.{IsSameShortlist};

use crate::shortlist::Shortlist;
use meeting::{seats, sliding};

impl Shortlist<'_> {
    /// Puts item d of score x at its place. Where that is one item too many, the last goes.
    #[tactic(auto, using(meeting::specs::Keeping::stays_out, meeting::specs::Keeping::slid_in))]
    pub fn keep(&mut self, d: u16, x: u32)
        ensures same { IsSameShortlist self.old self.new }
        ensures inserts { Inserted d x x self.old.count self.old.filled self.old.picks.now
            self.old.lows.now self.old.lows.now self.new.filled self.new.picks.now self.new.lows.now
            self.new.lows.now }
    {
        let picks = &mut *self.picks;
        let lows = &mut *self.lows;
        let at = seats::seat(d, x, x, self.filled, picks, lows, lows);
        // Every place is taken by an item that stands before it.
        if at == self.count {
            return;
        }
        let last = sliding::last_place(self.filled, self.count);
        sliding::slide_places(picks, lows, at, last, d, x);
        self.filled = last + 1;
    }

    /// The score in the last place. Where that is still free, it is what was lent.
    pub fn last_score(&self) -> u32
        ensures { result ≡ slice_index self.now.lows.now (self.now.count - 1) }
    {
        self.lows[self.count - 1]
    }
}
