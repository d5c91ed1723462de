//! The numbers of a query record and of a list record, and the tests of each.
//! Numbers are big-endian, and a record's length counts the bytes after itself.
#![tactic(auto)]

ghost use Rattle.std.specs.Prelude.{◌≡◌, ◌+◌, ◌≤◌, ◌<◌, length, OnOk};
ghost use Rattle.model.specs.Refusals.{pair, accepted};
ghost use Rattle.model.specs.Records.{quad, query_count, query_head, lists_m, lists_n, lists_head};
ghost use Rattle.model.specs.Answers.{told};
ghost use Rattle.poses.specs.Refusals.{value_of};

use poses::refusals::Refusal;

/// The number in the two bytes from `at` on, the higher one first.
#[tactic(auto, unfolding(model::specs::Refusals::pair))]
pub fn pair_at(bytes: &[u8], at: usize) -> usize
    requires { at + 1 < length bytes.now }
    ensures { (result ≡ pair bytes.now at) × (result < 65536) }
{
    usize::from(bytes[at]) * 256 + usize::from(bytes[at + 1])
}

// A record's length, in its first four bytes. It reaches 2^32 - 1, to which nothing can be added in
// 32 bits, so it is a `usize`.
#[tactic(auto, unfolding(model::specs::Records::quad))]
fn length_of(bytes: &[u8]) -> usize
    requires { 4 ≤ length bytes.now }
    ensures { result ≡ quad bytes.now 0 }
{
    pair_at(bytes, 0) * 65536 + pair_at(bytes, 2)
}

/// How many weights a query record says that it has.
#[tactic(auto, unfolding(model::specs::Records::query_count))]
pub fn query_count(query: &[u8]) -> usize
    requires { 9 ≤ length query.now }
    ensures { (result ≡ query_count query.now) × (result < 256) }
{
    usize::from(query[8])
}

/// How many lists a list record says that it has.
#[tactic(auto, unfolding(model::specs::Records::lists_m))]
pub fn lists_m(lists: &[u8]) -> usize
    requires { 8 ≤ length lists.now }
    ensures { (result ≡ lists_m lists.now) × (result < 256) }
{
    usize::from(lists[5])
}

/// How many items a list record says that it has.
#[tactic(auto, unfolding(model::specs::Records::lists_n))]
pub fn lists_n(lists: &[u8]) -> usize
    requires { 8 ≤ length lists.now }
    ensures { (result ≡ lists_n lists.now) × (result < 65536) }
{
    pair_at(lists, 6)
}

/// The tests of a query record, in their order.
#[tactic(auto, unfolding(model::specs::Records::query_head))]
pub fn query_head(query: &[u8]) -> Result<(), Refusal>
    ensures tells { value_of result ≡ told (query_head query.now) }
    ensures passes { OnOk result (query_head query.now ≡ accepted) }
{
    if query.len() < 9 {
        return Err(Refusal::ShortRecord);
    }
    let length = length_of(query);
    if query[4] != 1 {
        return Err(Refusal::WrongVersion);
    }
    if length != 5 + 2 * query_count(query) {
        return Err(Refusal::WrongCounts);
    }
    if query.len() - 4 < length {
        return Err(Refusal::WrongLength);
    }
    Ok(())
}

/// The tests of a list record but for its last, the room for its entries, which is of the slices.
#[tactic(auto, using(laws::specs::Accepted::sized, laws::specs::Accepted::size_fits), unfolding(model::specs::Records::lists_head))]
pub fn lists_head(lists: &[u8]) -> Result<(), Refusal>
    ensures tells { value_of result ≡ told (lists_head lists.now) }
    ensures passes { OnOk result (lists_head lists.now ≡ accepted) }
{
    if lists.len() < 8 {
        return Err(Refusal::ShortRecord);
    }
    let length = length_of(lists);
    if length != lists.len() - 4 {
        return Err(Refusal::WrongLength);
    }
    if lists[4] != 1 {
        return Err(Refusal::WrongVersion);
    }
    let m = lists_m(lists);
    let n = lists_n(lists);
    if lists::wrong_size(m, n) {
        return Err(Refusal::WrongSize);
    }
    if length != 4 + 2 * m + 4 * (m * n) {
        return Err(Refusal::WrongCounts);
    }
    Ok(())
}
