//! The library under C names. A slice is a pointer and then its number of elements, an array a
//! pointer: C lends no structs of slices, so each function takes them one by one. It is thin over a proved
//! one and tells the same numbers: what that one answers stands in the array that C lends.
#![tactic(auto)]

ghost use Rattle.model.specs.Searches.{TA, BPA, BPA2, NRA};
ghost use Rattle.entries.specs.Clauses.{poses};
ghost use Rattle.admission.specs.Clauses.{lent_with};
ghost use Rattle.telling.specs.Told.{SearchTold};
ghost use Rattle.reporting.specs.Told.{CheckTold, QueryTold, ListsTold, PartTold};

use poses::methods::Method;
use poses::{PoseSet, Query, Room};
use reporting::{check_told, lists_told, query_told, weights_told};
use telling::searched;

/// The threshold algorithm.
#[unsafe(no_mangle)]
pub extern "C" fn rutlark_ta(
    m: usize,
    n: usize,
    items: &[u16],
    scores: &[u16],
    rule: u8,
    k: usize,
    weights: &[u8],
    picks: &mut [u16],
    lows: &mut [u32],
    highs: &mut [u32],
    tally: &mut [u8],
    work: &mut [u16],
    told: &mut [u32; 7],
) -> u32
    ensures { SearchTold TA (lent_with m n rule k weights.now items.now
        scores.now picks.old lows.old highs.old
        tally.old work.old) result told.new picks.new lows.new
        highs.new tally.new work.new }
{
    let set = PoseSet {
        lists: m,
        poses: n,
        items,
        scores,
    };
    let query = Query {
        rule,
        count: k,
        weights,
    };
    let mut room = Room {
        picks,
        lows,
        highs,
        tally,
        work,
    };
    searched(Method::Ta, set, query, &mut room, told)
}

/// The best position algorithm.
#[unsafe(no_mangle)]
pub extern "C" fn rutlark_bpa(
    m: usize,
    n: usize,
    items: &[u16],
    scores: &[u16],
    rule: u8,
    k: usize,
    weights: &[u8],
    picks: &mut [u16],
    lows: &mut [u32],
    highs: &mut [u32],
    tally: &mut [u8],
    work: &mut [u16],
    told: &mut [u32; 7],
) -> u32
    ensures { SearchTold BPA (lent_with m n rule k weights.now items.now
        scores.now picks.old lows.old highs.old
        tally.old work.old) result told.new picks.new lows.new
        highs.new tally.new work.new }
{
    let set = PoseSet {
        lists: m,
        poses: n,
        items,
        scores,
    };
    let query = Query {
        rule,
        count: k,
        weights,
    };
    let mut room = Room {
        picks,
        lows,
        highs,
        tally,
        work,
    };
    searched(Method::Bpa, set, query, &mut room, told)
}

/// The best position algorithm that visits no position twice.
#[unsafe(no_mangle)]
pub extern "C" fn rutlark_bpa2(
    m: usize,
    n: usize,
    items: &[u16],
    scores: &[u16],
    rule: u8,
    k: usize,
    weights: &[u8],
    picks: &mut [u16],
    lows: &mut [u32],
    highs: &mut [u32],
    tally: &mut [u8],
    work: &mut [u16],
    told: &mut [u32; 7],
) -> u32
    ensures { SearchTold BPA2 (lent_with m n rule k weights.now items.now
        scores.now picks.old lows.old highs.old
        tally.old work.old) result told.new picks.new lows.new
        highs.new tally.new work.new }
{
    let set = PoseSet {
        lists: m,
        poses: n,
        items,
        scores,
    };
    let query = Query {
        rule,
        count: k,
        weights,
    };
    let mut room = Room {
        picks,
        lows,
        highs,
        tally,
        work,
    };
    searched(Method::Bpa2, set, query, &mut room, told)
}

/// NRA, by sorted accesses alone.
#[unsafe(no_mangle)]
pub extern "C" fn rutlark_nra(
    m: usize,
    n: usize,
    items: &[u16],
    scores: &[u16],
    rule: u8,
    k: usize,
    weights: &[u8],
    picks: &mut [u16],
    lows: &mut [u32],
    highs: &mut [u32],
    tally: &mut [u8],
    work: &mut [u16],
    told: &mut [u32; 7],
) -> u32
    ensures { SearchTold NRA (lent_with m n rule k weights.now items.now
        scores.now picks.old lows.old highs.old
        tally.old work.old) result told.new picks.new lows.new
        highs.new tally.new work.new }
{
    let set = PoseSet {
        lists: m,
        poses: n,
        items,
        scores,
    };
    let query = Query {
        rule,
        count: k,
        weights,
    };
    let mut room = Room {
        picks,
        lows,
        highs,
        tally,
        work,
    };
    searched(Method::Nra, set, query, &mut room, told)
}

/// The list check by itself.
#[unsafe(no_mangle)]
pub extern "C" fn rutlark_check_lists(
    m: usize,
    n: usize,
    items: &[u16],
    scores: &[u16],
    work: &mut [u16],
    told: &mut [u32; 3],
) -> u32
    ensures { CheckTold (poses m n items.now scores.now) work.old result
        told.new work.new }
{
    let set = PoseSet {
        lists: m,
        poses: n,
        items,
        scores,
    };
    check_told(set, work, told)
}

/// The read of a query record. The array's numbers are `usize`, as a search takes them.
#[unsafe(no_mangle)]
pub extern "C" fn rutlark_read_query(bytes: &[u8], told: &mut [usize; 5]) -> u32
    ensures { QueryTold bytes.now result told.new }
{
    query_told(bytes, told)
}

/// The read of a list record into two slices.
#[unsafe(no_mangle)]
pub extern "C" fn rutlark_read_lists(
    bytes: &[u8],
    items: &mut [u16],
    scores: &mut [u16],
    told: &mut [usize; 3],
) -> u32
    ensures { ListsTold bytes.now items.old scores.old result
        told.new items.new scores.new }
{
    lists_told(bytes, items, scores, told)
}

/// The weights that a query is to be searched with, as a part of the one record or the other. An
/// exported function returns no slice, so it tells the record, where the part starts in it and how many
/// bytes it is.
#[unsafe(no_mangle)]
pub extern "C" fn rutlark_chosen_weights<'a>(
    query: &'a [u8],
    lists: &'a [u8],
    told: &mut [usize; 3],
) -> usize
    ensures { PartTold query.now lists.now result told.new }
{
    weights_told(query, lists, told)
}
