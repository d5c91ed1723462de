//! Tests of a search that ask about one thing each: k, the weights, the room that is lent. And the weights as numbers.
#![tactic(auto)]

ghost use Rattle.std.specs.Prelude.{◌≡◌, ◌*◌, ◌≤◌, length};
ghost use Rattle.model.specs.Refusals.{wrong_k, wrong_weights};
ghost use Rattle.testing.specs.Clauses.{no_room_of, Decoded};

use heads::pair_at;

/// How many places are lent of each slice that a search writes, the work slice apart.
#[derive(Clone, Copy)]
pub struct Lengths {
    pub picks: usize,
    pub lows: usize,
    pub highs: usize,
    pub tally: usize,
}

/// Test 2: k is 0 or above n.
#[tactic(auto, unfolding(model::specs::Refusals::wrong_k))]
pub fn wrong_k(k: usize, n: usize) -> bool
    ensures { result ≡ wrong_k k n }
{
    k == 0 || n < k
}

/// Test 4: the weights are not 2m bytes, or one is above 1,000.
#[tactic(auto, using(crate::proofs::Heavy::heavy_found, laws::specs::Tests::some_none), unfolding(model::specs::Refusals::wrong_weights, model::specs::Refusals::weight_of))]
pub fn wrong_weights(m: usize, weights: &[u8]) -> bool
    requires { m ≤ 8 }
    ensures { result ≡ wrong_weights m weights.now }
{
    if weights.len() != 2 * m {
        return true;
    }
    for i in 0..m {
        if 1000 < pair_at(weights, 2 * i) {
            return true;
        }
    }
    false
}

/// The weights as numbers, list by list; 0 past the last.
#[tactic(auto, using(crate::specs::Weights::weight_past, laws::specs::Lists::zeros_at), unfolding(model::specs::Refusals::weight_of))]
pub fn decode(m: usize, weights: &[u8]) -> [u32; 8]
    requires { (m ≤ 8) × (length weights.now ≡ 2 * m) }
    ensures { Decoded weights.now result }
{
    let mut numbers = [0u32; 8];
    for i in 0..m {
        numbers[i] = pair_at(weights, 2 * i) as u32;
    }
    numbers
}

/// Test 6: a slice that is lent has under `count` places for the shortlist, or under `size` for the tally or the work slice.
pub fn no_room(count: usize, size: usize, lengths: Lengths, work: usize) -> bool
    ensures { result ≡ no_room_of count size lengths.picks lengths.lows lengths.highs lengths.tally work }
{
    lengths.picks < count
        || lengths.lows < count
        || lengths.highs < count
        || lengths.tally < size
        || work < size
}
