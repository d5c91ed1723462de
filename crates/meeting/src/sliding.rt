// A value put in among the entries of a slice, or an item among those of a shortlist that keeps at most k. The entries
// move in a loop and not by `copy_within`, which the compiler may make a call of `memmove`: a host need give `memset` alone.
ghost use Rattle.std.specs.Prelude.{◌≡◌, ◌-◌, ◌≤◌, ◌<◌, min, length};
ghost use Rattle.meeting.specs.Clauses.{slid};

// Puts x at `seat`, after moving what stands from there up to `last` one place on; what stood at `last` goes.
#[tactic(auto, using(crate::proofs::Moving::moving_starts, crate::proofs::Moving::moving_ends))]
pub fn slide_scores(list: &mut [u32], seat: usize, last: usize, x: u32)
    requires { (seat ≤ last) × (last < length list.old) }
    ensures { list.new ≡ slid seat last x list.old }
{
    for j in (seat..last).rev() {
        list[j + 1] = list[j];
    }
    list[seat] = x;
}

// The same for a shortlist's items and their scores, in one walk: item d of score x.
#[tactic(auto, using(crate::proofs::Moving::moving_starts, crate::proofs::Moving::moving_ends))]
pub fn slide_places(picks: &mut [u16], lows: &mut [u32], seat: usize, last: usize, d: u16, x: u32)
    requires { (seat ≤ last) × (last < length picks.old) × (last < length lows.old) }
    ensures { (picks.new ≡ slid seat last d picks.old)
        × (lows.new ≡ slid seat last x lows.old) }
{
    for j in (seat..last).rev() {
        picks[j + 1] = picks[j];
        lows[j + 1] = lows[j];
    }
    picks[seat] = d;
    lows[seat] = x;
}

// Where the last of at most k places stands once one more item is put among `filled`.
pub fn last_place(filled: usize, k: usize) -> usize
    requires { 1 ≤ k }
    ensures { result ≡ min filled (k - 1) }
{
    filled.min(k - 1)
}
