// The two reads, and the choice of weights. Each runs the whole case, or gives `None`.
use crate::{input, lend, print};

// A query read.
pub fn query(number: u32) -> Option<()> {
    let mut bytes = [0u8; 33400];
    let count = input::many(&mut bytes)?;
    let read = records::read_query(&bytes[..count]);
    print::case(number);
    match read {
        Ok(query) => print::line(&[
            0,
            u64::from(query.rule),
            query.k as u64,
            query.c as u64,
            query.bytes as u64,
        ]),
        Err(refusal) => print::line(&[refusal.number(), 0, 0, 0, 0]),
    }
    Some(())
}

// A lists read, into two slices of the lengths told.
pub fn lists(number: u32) -> Option<()> {
    let mut bytes = [0u8; 33400];
    let count = input::many(&mut bytes)?;
    let items_count = input::length(8200)?;
    let scores_count = input::length(8200)?;
    let mut items = [0u16; 8200];
    let items = &mut items[..items_count];
    lend::pairs(lend::ITEMS, items);
    let mut scores = [0u16; 8200];
    let scores = &mut scores[..scores_count];
    lend::pairs(lend::WORK, scores);
    let read = records::read_lists(&bytes[..count], items, scores);
    print::case(number);
    match read {
        Ok(read) => print::line(&[0, read.m as u64, read.n as u64]),
        Err(refusal) => print::line(&[refusal.number(), 0, 0]),
    }
    print::slice(items);
    print::slice(scores);
    Some(())
}

// The chosen weights.
pub fn weights(number: u32) -> Option<()> {
    let mut query = [0u8; 33400];
    let query_count = input::many(&mut query)?;
    let mut lists = [0u8; 33400];
    let lists_count = input::many(&mut lists)?;
    let part = records::chosen_weights(&query[..query_count], &lists[..lists_count]);
    print::case(number);
    print::part(part);
    Some(())
}
