// What a slice to be written holds as it is lent: nothing that a call writes.
ghost use Rattle.std.specs.Prelude.{◌≤◌};

// The first entry of the picks, and of the items of a lists read.
pub const ITEMS: u16 = 40000;

// The first entry of the work slice, and of the scores of a lists read.
pub const WORK: u16 = 50000;

pub const LOWS: u32 = 3000000000;

pub const HIGHS: u32 = 3100000000;

// Fills the entries: each is one more than the one before it, a thousand of them over and over.
pub fn pairs(first: u16, entries: &mut [u16])
    requires { first ≤ 50000 }
{
    for (j, entry) in entries.iter_mut().enumerate() {
        *entry = first + (j % 1000) as u16;
    }
}

// Fills the lows or the highs, of which no slice has more than two bytes count.
pub fn bounds(first: u32, entries: &mut [u32])
    requires { first ≤ 3100000000 }
{
    for (j, entry) in entries.iter_mut().enumerate() {
        *entry = first + (j % 65536) as u32;
    }
}

// Fills the entries of the tally.
pub fn tally(entries: &mut [u8]) {
    for (j, entry) in entries.iter_mut().enumerate() {
        *entry = 200 + (j % 50) as u8;
    }
}
