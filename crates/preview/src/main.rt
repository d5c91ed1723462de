// The previewer's program: a query record and a list record from standard input, and what the four
// searches find, or the first refusal, on standard output.
#![tactic(auto)]

use poses::Room;

// The descriptors of standard input and output.
const STDIN: i32 = 0;

const STDOUT: i32 = 1;

// A byte more is taken than the longest two records have, so that one too many is told as such. The
// text is whole before a byte of it is written. A read that fails is the end of the input, and a
// write that fails the end of the output.
fn main() {
    let mut bytes = [0u8; 33312];
    let mut items = [0u16; 8192];
    let mut scores = [0u16; 8192];
    let mut picks = [0u16; 1024];
    let mut lows = [0u32; 1024];
    let mut highs = [0u32; 1024];
    let mut tally = [0u8; 8192];
    let mut work = [0u16; 8192];
    let mut out = [0u8; 114884];
    // Every array stands before the read: one that came after it would be cleared twice.
    let taken = io::read_full(STDIN, &mut bytes);
    let mut room = Room {
        picks: &mut picks,
        lows: &mut lows,
        highs: &mut highs,
        tally: &mut tally,
        work: &mut work,
    };
    let end = previewing::preview(
        &bytes[..taken],
        &mut items,
        &mut scores,
        &mut room,
        &mut out,
    );
    io::write_all(STDOUT, &out[..end]);
}
