//! What every part of the library speaks of: a pose set and a query as they are lent, and why a call is
//! refused.
#![tactic(auto)]

pub mod methods;
pub mod refusals;
pub mod rules;

/// A pose set as it is lent. Nothing is tested yet: any content and length may stand here.
#[derive(Clone, Copy)]
pub struct PoseSet<'a> {
    /// How many lists there are: 1 to 8 in a set that is accepted.
    pub lists: usize,
    /// How many poses there are, each of which stands once in every list: 1 to 1,024 in a set that is accepted.
    pub poses: usize,
    /// The item, a pose by its number from 0, at position p of list i, both from 0, is entry i x `poses` + p.
    /// Entries past `lists` x `poses` are not looked at.
    pub items: &'a [u16],
    /// The local scores, 0 to 65,535, laid out as the items are. In an accepted list they never rise.
    pub scores: &'a [u16],
}

/// A query as it is lent. Nothing is tested yet.
#[derive(Clone, Copy)]
pub struct Query<'a> {
    /// 0 the sum of the products, 1 the smallest, 2 the largest; any other byte is refused.
    pub rule: u8,
    /// How many places the shortlist is to have: 1 to the number of poses.
    pub count: usize,
    /// A weight for each list, 0 to 1,000, in two bytes, the higher one first.
    pub weights: &'a [u8],
}

/// What a search writes into, as it is lent. Places beyond what a search writes stay as lent.
#[derive(Drop)]
pub struct Room<'a> {
    /// The shortlist's items, best first: `count` places of the query.
    pub picks: &'a mut [u16],
    /// Their lows, place by place. Where whole scores are known, the scores.
    pub lows: &'a mut [u32],
    /// Their highs, place by place.
    pub highs: &'a mut [u32],
    /// How often each position was visited, laid out as the items are: `lists` x `poses` places.
    pub tally: &'a mut [u8],
    /// Each item's position in each list, from 1: item d's in list i is entry i x `poses` + d.
    pub work: &'a mut [u16],
}
