// The previewer's program, from the bytes on its standard input to the text that it prints.
use crate::{input, print};
use searches::Room;

// How many of the bytes it takes at most.
const MOST: usize = 33312;

// The text for the bytes taken.
fn show(bytes: &[u8]) {
    let mut items = [0u16; 8192];
    let mut scores = [0u16; 8192];
    let mut picks = [0u16; 1024];
    let mut lows = [0u32; 1024];
    let mut highs = [0u32; 1024];
    let mut tally = [0u8; 8192];
    let mut work = [0u16; 8192];
    let mut room = Room {
        picks: &mut picks,
        lows: &mut lows,
        highs: &mut highs,
        tally: &mut tally,
        work: &mut work,
    };
    let mut out = [0u8; 114884];
    let end = previewing::preview(bytes, &mut items, &mut scores, &mut room, &mut out);
    print::text(&out[..end]);
}

// The whole case, or `None`.
pub fn run(number: u32) -> Option<()> {
    let mut bytes = [0u8; 33400];
    let count = input::many(&mut bytes)?;
    print::case(number);
    show(&bytes[..count.min(MOST)]);
    Some(())
}
