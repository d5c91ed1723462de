// The list check called by itself.
use crate::{input, lend, print};
use searches::PoseSet;

// The whole case, or `None`.
pub fn run(number: u32) -> Option<()> {
    let mut head = [0u8; 16];
    input::fill(&mut head)?;
    let mut items = [0u16; 8200];
    let items_count = input::pairs(&mut items)?;
    let mut scores = [0u16; 8200];
    let scores_count = input::pairs(&mut scores)?;
    let work_count = input::length(8200)?;
    let mut work = [0u16; 8200];
    let work = &mut work[..work_count];
    lend::pairs(lend::WORK, work);
    let set = PoseSet {
        lists: input::number(&head[..8]),
        poses: input::number(&head[8..]),
        items: &items[..items_count],
        scores: &scores[..scores_count],
    };
    let checked = lists::check_lists(set, work);
    print::case(number);
    match checked {
        Ok(()) => print::line(&[0u32, 0, 0]),
        Err(refusal) => print::line(&[refusal.number(), refusal.list(), refusal.position()]),
    }
    print::slice(work);
    Some(())
}
