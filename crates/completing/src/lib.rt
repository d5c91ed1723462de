//! What completes a run once its last row is read: the highs, where whole scores are known, and NRA's
//! accesses by kind.
#![tactic(auto)]

ghost use Rattle.std.specs.Prelude.{◌≡◌, ◌≤◌, length, take};
ghost use Rattle.model.specs.Words.{over};
ghost use Rattle.completing.specs.Clauses.{OnlySorted};

use meeting::{Direct, Found, Random, Sorted};

/// Whole scores are known, so the highs are the lows. They are copied in a loop and not by `copy_from_slice`, which the compiler
/// makes a call of `memcpy`: a host need give `memset` alone.
#[tactic(auto, using(crate::proofs::Copied::copied_none, crate::proofs::Copied::copied_more))]
pub fn repeat_lows(k: usize, lows: &[u32], highs: &mut [u32])
    requires { (k ≤ length lows.now) × (k ≤ length highs.old) }
    ensures { highs.new ≡ over (take k lows.now) highs.old }
{
    for i in 0..k {
        highs[i] = lows[i];
    }
}

/// NRA makes one sorted access of each list in each row, and no other.
pub fn only_sorted(lists: usize, rows: u32) -> Found
    requires { (lists ≤ 8) × (rows ≤ 1024) }
    ensures { OnlySorted lists rows result }
{
    Found {
        rows,
        sorted: Sorted(rows * lists as u32),
        direct: Direct(0),
        random: Random(0),
    }
}
