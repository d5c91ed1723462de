// A search.
ghost use Rattle.std.specs.Prelude.{◌≤◌, IfSome};

use crate::{input, lend, print};
use searches::{Answer, Found, Method, PoseSet, Query, Refusal, Room};

// The search that a case names, with the sizes of its lists, its rule and the places asked for.
#[derive(Clone, Copy)]
struct Head {
    method: Method,
    lists: usize,
    poses: usize,
    rule: u8,
    count: usize,
}

// The lengths of the slices to be written.
#[derive(Clone, Copy)]
struct Lengths {
    picks: usize,
    lows: usize,
    highs: usize,
    tally: usize,
    work: usize,
}

fn method_of(byte: u8) -> Option<Method> {
    match byte {
        0 => Some(Method::Ta),
        1 => Some(Method::Bpa),
        2 => Some(Method::Bpa2),
        3 => Some(Method::Nra),
        _ => None,
    }
}

fn read_head() -> Option<Head> {
    let mut head = [0u8; 26];
    input::fill(&mut head)?;
    Some(Head {
        method: method_of(head[0])?,
        lists: input::number(&head[1..9]),
        poses: input::number(&head[9..17]),
        rule: head[17],
        count: input::number(&head[18..26]),
    })
}

// All five are read before one is refused.
fn read_lengths() -> Option<Lengths>
    ensures { IfSome result (λ r. (r.picks ≤ 1100) × (r.lows ≤ 1100) × (r.highs ≤ 1100)
        × (r.tally ≤ 8200) × (r.work ≤ 8200)) }
{
    let picks = input::length(1100);
    let lows = input::length(1100);
    let highs = input::length(1100);
    let tally = input::length(8200);
    let work = input::length(8200);
    Some(Lengths {
        picks: picks?,
        lows: lows?,
        highs: highs?,
        tally: tally?,
        work: work?,
    })
}

// Each search by its own name.
fn search(method: Method, set: PoseSet, query: Query, room: &mut Room) -> Result<Found, Refusal> {
    match method {
        Method::Ta => searches::ta(set, query, room),
        Method::Bpa => searches::bpa(set, query, room),
        Method::Bpa2 => searches::bpa2(set, query, room),
        Method::Nra => searches::nra(set, query, room),
    }
}

// Searches in the slices, filled with what they hold as they are lent, and prints the lines of it.
fn show(number: u32, method: Method, set: PoseSet, query: Query, room: &mut Room) {
    lend::pairs(lend::ITEMS, room.picks);
    lend::bounds(lend::LOWS, room.lows);
    lend::bounds(lend::HIGHS, room.highs);
    lend::tally(room.tally);
    lend::pairs(lend::WORK, room.work);
    let answer = Answer::from(search(method, set, query, room));
    print::case(number);
    print::answer(answer);
    print::slice(room.picks);
    print::slice(room.lows);
    print::slice(room.highs);
    print::slice(room.tally);
    print::slice(room.work);
    print::first_picks(room.picks);
}

// The slices to be written, of the lengths told. In its caller's frame, they share the stack with those of the other kinds of case.
#[inline(always)]
fn with_room(number: u32, method: Method, set: PoseSet, query: Query) -> Option<()> {
    let lengths = read_lengths()?;
    let mut picks = [0u16; 1100];
    let mut lows = [0u32; 1100];
    let mut highs = [0u32; 1100];
    let mut tally = [0u8; 8200];
    let mut work = [0u16; 8200];
    let mut room = Room {
        picks: &mut picks[..lengths.picks],
        lows: &mut lows[..lengths.lows],
        highs: &mut highs[..lengths.highs],
        tally: &mut tally[..lengths.tally],
        work: &mut work[..lengths.work],
    };
    show(number, method, set, query, &mut room);
    Some(())
}

// The whole case, of a search that there is, or `None`.
pub fn run(number: u32) -> Option<()> {
    let head = read_head()?;
    let mut weights = [0u8; 40];
    let weights_count = input::few(&mut weights)?;
    let mut items = [0u16; 8200];
    let items_count = input::pairs(&mut items)?;
    let mut scores = [0u16; 8200];
    let scores_count = input::pairs(&mut scores)?;
    let set = PoseSet {
        lists: head.lists,
        poses: head.poses,
        items: &items[..items_count],
        scores: &scores[..scores_count],
    };
    let query = Query {
        rule: head.rule,
        count: head.count,
        weights: &weights[..weights_count],
    };
    with_room(number, head.method, set, query)
}
