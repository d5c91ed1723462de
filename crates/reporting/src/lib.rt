//! The list check, the two reads and the chosen weights, told as C is told them: each answer's numbers in a lent array. Of a
//! refusal C is told its number, and of the list check its list and position; all else is 0.
#![tactic(auto)]

ghost use Rattle.std.specs.Prelude.{◌≡◌};
ghost use Rattle.poses.specs.Sets.{set_of};
ghost use Rattle.reporting.specs.Told.{CheckTold, QueryTold, ListsTold, PartTold};

use poses::PoseSet;

/// The list check by itself.
#[tactic(auto, using(crate::proofs::Telling::check_accepted, crate::proofs::Telling::check_refused))]
pub fn check_told(set: PoseSet, work: &mut [u16], told: &mut [u32; 3]) -> u32
    ensures { CheckTold (set_of set.entry) work.old result told.new work.new }
{
    *told = match lists::check_lists(set, work) {
        Ok(()) => [0, 0, 0],
        Err(refusal) => [refusal.number(), refusal.list(), refusal.position()],
    };
    told[0]
}

/// The read of a query record. The array's numbers are `usize`, as a search takes them.
#[tactic(auto, using(crate::proofs::Telling::query_told, crate::proofs::Telling::query_refused))]
pub fn query_told(bytes: &[u8], told: &mut [usize; 5]) -> u32
    ensures { QueryTold bytes.now result told.new }
{
    match records::read_query(bytes) {
        Ok(q) => {
            *told = [0, usize::from(q.rule), q.k, q.c, q.bytes];
            0
        }
        Err(refusal) => {
            *told = [refusal.number() as usize, 0, 0, 0, 0];
            refusal.number()
        }
    }
}

/// The read of a list record into two slices.
#[tactic(auto, using(crate::proofs::Telling::lists_told, crate::proofs::Telling::lists_refused))]
pub fn lists_told(bytes: &[u8], items: &mut [u16], scores: &mut [u16], told: &mut [usize; 3]) -> u32
    ensures { ListsTold bytes.now items.old scores.old result
        told.new items.new scores.new }
{
    match records::read_lists(bytes, items, scores) {
        Ok(read) => {
            *told = [0, read.m, read.n];
            0
        }
        Err(refusal) => {
            *told = [refusal.number() as usize, 0, 0];
            refusal.number()
        }
    }
}

/// The weights that a query is to be searched with, as a part of the one record or the other: the record
/// (0 the query, 1 the lists), where the part starts in it and how many bytes it is. Weights that are there are at least one pair, so an
/// empty part is that of refused records.
pub fn weights_told<'a>(query: &'a [u8], lists: &'a [u8], told: &mut [usize; 3]) -> usize
    ensures { PartTold query.now lists.now result told.new }
{
    let size = records::chosen_weights(query, lists).len();
    if size == 0 {
        *told = [0, 0, 0];
        return 0;
    }
    *told = match records::read_query(query) {
        Ok(own) if own.c != 0 => [0, 9, size],
        _ => [1, 8, size],
    };
    size
}
