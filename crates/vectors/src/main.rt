// The recorded cases of the independent program, run through the public functions: the cases are
// read from standard input, and what each gives is printed. The head of
// reference/src/cases/format.rs tells both formats. Any input is safe: where a case is not whole,
// or asks for more than the arrays here hold, the program ends and prints nothing of it. They hold
// more than any recorded case needs: 8,200 entries, of which the largest set takes 8,192, 1,100
// places of a shortlist, 33,400 bytes.
#![tactic(auto)]

mod input;
mod lend;
mod of_check;
mod of_preview;
mod of_records;
mod of_search;
mod print;

// One case by its number: `None` where it is not whole.
fn case(number: u32) -> Option<()> {
    let mut kind = [0u8; 1];
    input::fill(&mut kind)?;
    match kind[0] {
        1 => of_preview::run(number),
        2 => of_search::run(number),
        3 => of_check::run(number),
        4 => of_records::query(number),
        5 => of_records::lists(number),
        6 => of_records::weights(number),
        _ => None,
    }
}

// One more than the last case that is run, so that the loop ends whatever is read; mostly the input ends it.
const MOST: u32 = 1000000;

fn main() {
    for number in 1..MOST {
        if case(number).is_none() {
            return;
        }
    }
}
