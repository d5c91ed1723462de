//! The searches again, with the shortlist as rows: item, low and high of a place together. The types that a caller names
//! beside are handed on.
#![tactic(auto)]

ghost use Rattle.std.specs.Prelude.{◌≡◌, length, take};
ghost use Rattle.model.specs.Searches.{TA, BPA, BPA2, NRA};
ghost use Rattle.admission.specs.Clauses.{lent_with};
ghost use Rattle.answering.specs.Answered.{Searched};
ghost use Rattle.placing.specs.Counts.{enough_of, lesser_of};
ghost use Rattle.poses.specs.Methods.{method_number};
ghost use Rattle.running.specs.Clauses.{search_at};
ghost use Rattle.answers.specs.Clauses.{answer_of};
ghost use Rattle.places.specs.Clauses.{lent_rows, SearchedRows, Columned};

pub use meeting::Found;
pub use placing::{Columns, Place};
pub use poses::methods::Method;
pub use poses::refusals::{Refusal, Spot};
pub use poses::{PoseSet, Query};

// A search into the first places of longer columns, as many as there are rows: its own test tells whether they are
// enough. The columns come one by one, since a part of each is lent on.
fn search_within(
    method: Method,
    set: PoseSet,
    query: Query,
    rows: usize,
    picks: &mut [u16],
    lows: &mut [u32],
    highs: &mut [u32],
    tally: &mut [u8],
    work: &mut [u16],
) -> Result<Found, Refusal>
    requires { (length picks.old ≡ 1024) × (length lows.old ≡ 1024) × (length highs.old ≡ 1024) }
    ensures { Searched (search_at (method_number method)) (lent_with set.entry.lists set.entry.poses
        query.entry.rule query.entry.count query.entry.weights.now set.entry.items.now
        set.entry.scores.now (take (lesser_of rows) picks.old) (take (lesser_of rows) lows.old)
        (take (lesser_of rows) highs.old) tally.old work.old) (answer_of result)
        (take (lesser_of rows) picks.new) (take (lesser_of rows) lows.new)
        (take (lesser_of rows) highs.new) tally.new work.new }
{
    let part = placing::lesser(rows);
    answering::searched(
        method,
        set,
        query,
        &mut picks[..part],
        &mut lows[..part],
        &mut highs[..part],
        tally,
        work,
    )
}

/// A search for so many lent rows, up to where they are written: its shortlist stays in columns, of which the first
/// places are to be written, `placing::enough` of them.
pub fn search_columns(
    method: Method,
    set: PoseSet,
    query: Query,
    rows: usize,
    columns: &mut Columns,
    tally: &mut [u8],
    work: &mut [u16],
) -> Result<Found, Refusal>
    ensures { Columned (method_number method) set.entry.lists set.entry.poses query.entry.rule query.entry.count rows
        query.entry.weights.now set.entry.items.now set.entry.scores.now tally.old work.old (answer_of result)
        (enough_of (answer_of result).number query.entry.count) columns.new.picks columns.new.lows columns.new.highs
        tally.new work.new }
{
    let Columns { picks, lows, highs } = columns;
    search_within(method, set, query, rows, picks, lows, highs, tally, work)
}

/// The search of a name, its shortlist written into lent rows. Refused, the rows stay as lent, and beyond the
/// shortlist they do so too.
pub fn search_rows(
    method: Method,
    set: PoseSet,
    query: Query,
    rows: &mut [Place],
    tally: &mut [u8],
    work: &mut [u16],
) -> Result<Found, Refusal>
    ensures { SearchedRows (search_at (method_number method)) (lent_rows set.entry.lists set.entry.poses query.entry.rule
        query.entry.count query.entry.weights.now set.entry.items.now set.entry.scores.now rows.old
        tally.old work.old) (answer_of result) rows.old rows.new tally.new work.new }
{
    let mut columns = Columns {
        picks: [0; 1024],
        lows: [0; 1024],
        highs: [0; 1024],
    };
    let found = search_columns(method, set, query, rows.len(), &mut columns, tally, work)?;
    columns.fill(rows, query.count);
    Ok(found)
}

/// The threshold algorithm, into rows.
pub fn ta_rows(
    set: PoseSet,
    query: Query,
    rows: &mut [Place],
    tally: &mut [u8],
    work: &mut [u16],
) -> Result<Found, Refusal>
    ensures { SearchedRows TA (lent_rows set.entry.lists set.entry.poses query.entry.rule
        query.entry.count query.entry.weights.now set.entry.items.now set.entry.scores.now rows.old
        tally.old work.old) (answer_of result) rows.old rows.new tally.new work.new }
{
    search_rows(Method::Ta, set, query, rows, tally, work)
}

/// The best position algorithm, into rows.
pub fn bpa_rows(
    set: PoseSet,
    query: Query,
    rows: &mut [Place],
    tally: &mut [u8],
    work: &mut [u16],
) -> Result<Found, Refusal>
    ensures { SearchedRows BPA (lent_rows set.entry.lists set.entry.poses query.entry.rule
        query.entry.count query.entry.weights.now set.entry.items.now set.entry.scores.now rows.old
        tally.old work.old) (answer_of result) rows.old rows.new tally.new work.new }
{
    search_rows(Method::Bpa, set, query, rows, tally, work)
}

/// BPA2, into rows.
pub fn bpa2_rows(
    set: PoseSet,
    query: Query,
    rows: &mut [Place],
    tally: &mut [u8],
    work: &mut [u16],
) -> Result<Found, Refusal>
    ensures { SearchedRows BPA2 (lent_rows set.entry.lists set.entry.poses query.entry.rule
        query.entry.count query.entry.weights.now set.entry.items.now set.entry.scores.now rows.old
        tally.old work.old) (answer_of result) rows.old rows.new tally.new work.new }
{
    search_rows(Method::Bpa2, set, query, rows, tally, work)
}

/// NRA, into rows.
pub fn nra_rows(
    set: PoseSet,
    query: Query,
    rows: &mut [Place],
    tally: &mut [u8],
    work: &mut [u16],
) -> Result<Found, Refusal>
    ensures { SearchedRows NRA (lent_rows set.entry.lists set.entry.poses query.entry.rule
        query.entry.count query.entry.weights.now set.entry.items.now set.entry.scores.now rows.old
        tally.old work.old) (answer_of result) rows.old rows.new tally.new work.new }
{
    search_rows(Method::Nra, set, query, rows, tally, work)
}
