// What is printed of a case.
use searches::Answer;

// The descriptor of standard output.
const STDOUT: i32 = 1;

pub fn text(bytes: &[u8]) {
    io::write_all(STDOUT, bytes);
}

fn end() {
    text(b"\n");
}

// A number at the start of a line.
fn first(x: u64) {
    io::print_decimal(STDOUT, x);
}

// A space, and a number.
fn next(x: u64) {
    text(b" ");
    first(x);
}

// The line that begins what is printed of a case.
pub fn case(number: u32) {
    text(b"case");
    next(u64::from(number));
    end();
}

// A line of numbers, with a space between two.
pub fn line<T: Copy + Into<u64>>(numbers: &[T]) {
    for (j, &x) in numbers.iter().enumerate() {
        if j == 0 {
            first(x.into());
        } else {
            next(x.into());
        }
    }
    end();
}

// The line of a search's answer.
pub fn answer(a: Answer) {
    line(&[
        a.number, a.list, a.position, a.rows, a.sorted.0, a.direct.0, a.random.0,
    ]);
}

// A slice's line: its length and its digest, in which each entry is added to 31 times what comes
// before it, modulo 2^32.
pub fn slice<T: Copy + Into<u32>>(entries: &[T]) {
    let digest = entries.iter().fold(0, |digest: u32, &entry| {
        digest.wrapping_mul(31).wrapping_add(entry.into())
    });
    line(&[entries.len() as u64, u64::from(digest)]);
}

// The first picks of a shortlist, at most eight.
pub fn first_picks(picks: &[u16]) {
    line(&picks[..picks.len().min(8)]);
}

// The line of a part's length and its bytes.
pub fn part(bytes: &[u8]) {
    first(bytes.len() as u64);
    for &byte in bytes {
        next(u64::from(byte));
    }
    end();
}
