// One half of a list record's entries, read into a lent slice: the items, or the scores.
#![tactic(auto)]

ghost use Rattle.filling.specs.Clauses.{Filling, Filled};

use heads::pair_at;

// Fills the first `size` places with one half of the entries: the pairs at `from`, `from` + 4, ..
pub fn fill(bytes: &[u8], from: usize, size: usize, slice: &mut [u16])
    requires { Filling bytes.now from size slice.old }
    ensures { Filled bytes.now from size slice.old slice.new }
{
    for j in 0..size {
        slice[j] = pair_at(bytes, from + 4 * j) as u16;
    }
}
