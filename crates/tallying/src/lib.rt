// The tally written as a whole: cleared before visits are counted, or told once, after rows of which each position was visited once.
#![tactic(auto)]

ghost use Rattle.std.specs.Prelude.{◌≡◌, ◌++◌, ◌*◌, ◌≤◌, ltb, length, drop, replicate};
ghost use Rattle.model.specs.Words.{row as row_of, table, over};
ghost use Rattle.laws.specs.Lookups.{once};

// No position is visited yet: the first `size` entries are 0.
pub fn clear(tally: &mut [u8], size: usize)
    requires { size ≤ length tally.old }
    ensures { tally.new ≡ replicate size 0 ++ drop size tally.old }
{
    tally[..size].fill(0);
}

// One list's part of the tally after p rows: two plain fills, with no test of an entry.
fn fill_list(row: &mut [u8], p: usize)
    requires { p ≤ length row.old }
    ensures { row.new ≡ row_of (λ q. once (ltb q p)) (length row.old) }
{
    let (visited, rest) = row.split_at_mut(p);
    visited.fill(1);
    rest.fill(0);
}

// The whole tally after p rows; places beyond it stay as lent.
pub fn fill_tally(p: usize, m: usize, n: usize, tally: &mut [u8])
    requires { (p ≤ n) × (m ≤ 8) × (n ≤ 1024) × (m * n ≤ length tally.old) }
    ensures { tally.new ≡ over (table (λ i q. once (ltb q p)) n m) tally.old }
{
    for i in 0..m {
        let from = i * n;
        fill_list(&mut tally[from..from + n], p);
    }
}
