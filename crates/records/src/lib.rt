//! The reads of a query record and of a list record, and the weights chosen from either. The refusal that a caller names
//! beside is handed on.
#![tactic(auto)]

ghost use Rattle.std.specs.Prelude.{◌≡◌};
ghost use Rattle.records.specs.Clauses.{QueryIsRead, ListsAreRead, WeightsChosen};

use filling::fill;
use heads::{lists_head, lists_m, lists_n, pair_at, query_count, query_head};
pub use poses::refusals::Refusal;

/// A query record that was read. `rule` and `k` go into a query with no cast, and
/// `&input[bytes..]` is what follows the record.
#[derive(Clone, Copy, Debug, PartialEq, Eq)]
pub struct QueryRead {
    /// The record's own byte; a search tests it.
    pub rule: u8,
    /// How many places the shortlist is to have.
    pub k: usize,
    /// How many weights the record has, 0 to 255. A search refuses a number of them that is not its lists'.
    pub c: usize,
    /// How many bytes the record took.
    pub bytes: usize,
}

/// The sizes of a list record that was read.
#[derive(Clone, Copy, Debug, PartialEq, Eq)]
pub struct ListsRead {
    /// How many lists there are: 1 to 8.
    pub m: usize,
    /// How many poses there are: 1 to 1,024.
    pub n: usize,
}

/// Reads the query record that stands at the start of `bytes`; other records may follow it. `Err` is the first
/// refusal of 10, 12, 13 and 11.
#[tactic(auto, using(crate::specs::Held::query_held, crate::proofs::Reading::query_refused, crate::proofs::Reading::query_taken))]
pub fn read_query(bytes: &[u8]) -> Result<QueryRead, Refusal>
    ensures { QueryIsRead bytes.now result }
{
    query_head(bytes)?;
    let c = query_count(bytes);
    Ok(QueryRead {
        rule: bytes[5],
        k: pair_at(bytes, 6),
        c,
        bytes: 9 + 2 * c,
    })
}

/// Reads the list record that `bytes` is into an item slice and a score slice. Entries past m x n stay as
/// lent, and so do both slices where the read is refused: `Err` is the first refusal of 10, 11, 12, 1, 13 and 6.
#[tactic(auto, using(crate::specs::Held::lists_held, crate::proofs::Reading::sizes_read, crate::proofs::Reading::head_refused, crate::proofs::Reading::items_short, crate::proofs::Reading::scores_short, crate::proofs::Reading::lists_taken))]
pub fn read_lists(bytes: &[u8], items: &mut [u16], scores: &mut [u16]) -> Result<ListsRead, Refusal>
    ensures { ListsAreRead bytes.now items.old scores.old result
        items.new scores.new }
{
    lists_head(bytes)?;
    let m = lists_m(bytes);
    let n = lists_n(bytes);
    let size = m * n;
    if items.len() < size || scores.len() < size {
        return Err(Refusal::ShortRoom);
    }
    let start = 8 + 2 * m;
    fill(bytes, start, size, items);
    fill(bytes, start + 2, size, scores);
    Ok(ListsRead { m, n })
}

/// The weights that a query is to be searched with: its own, or where it has none the house weights
/// of the lists. They are a part of the one record or the other, uncopied, and empty where the read
/// of either refuses it by another number than 6.
#[tactic(auto, using(crate::specs::Held::query_held, crate::specs::Held::lists_held, crate::proofs::Choosing::none_of_refused_query, crate::proofs::Choosing::none_of_refused_lists), unfolding(crate::specs::Clauses::start_of, crate::specs::Clauses::lent_of, model::specs::Records::part_of, model::specs::Records::record_of))]
pub fn chosen_weights<'a>(query: &'a [u8], lists: &'a [u8]) -> &'a [u8]
    ensures { WeightsChosen query.entry lists.entry result }
{
    let Ok(()) = query_head(query) else {
        return &query[0..0];
    };
    let Ok(()) = lists_head(lists) else {
        return &query[0..0];
    };
    let count = query_count(query);
    if count == 0 {
        let end = 8 + 2 * lists_m(lists);
        return &lists[8..end];
    }
    let end = 9 + 2 * count;
    &query[9..end]
}
