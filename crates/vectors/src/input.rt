// The fields of a case, taken from standard input. Each gives `None` where the input ends before it
// has all that the field says, or where the slice has no room for it.
ghost use Rattle.std.specs.Prelude.{◌≤◌, IfSome, length};

// The descriptor of standard input.
const STDIN: i32 = 0;

// Fills the bytes.
pub fn fill(bytes: &mut [u8]) -> Option<()> {
    let count = io::read_full(STDIN, bytes);
    (count == bytes.len()).then_some(())
}

// The number in the bytes, big-endian; of more than eight, the last eight.
pub fn number(bytes: &[u8]) -> usize {
    bytes
        .iter()
        .fold(0, |x: usize, &byte| (x << 8) | usize::from(byte))
}

// A count of as many bytes as the field has, where it is not above the most.
fn count(field: &mut [u8], most: usize) -> Option<usize>
    ensures { IfSome result (λ count. count ≤ most) }
{
    fill(field)?;
    let count = number(field);
    if count <= most { Some(count) } else { None }
}

// The length of a slice to be written, in two bytes.
pub fn length(most: usize) -> Option<usize>
    ensures { IfSome result (λ count. count ≤ most) }
{
    let mut field = [0u8; 2];
    count(&mut field, most)
}

// The bytes of a field, into the start of a slice: how many.
fn counted(head: &mut [u8], bytes: &mut [u8]) -> Option<usize>
    ensures { IfSome result (λ count. count ≤ length bytes.new) }
{
    let count = count(head, bytes.len())?;
    fill(&mut bytes[..count])?;
    Some(count)
}

// Bytes whose count has two bytes.
pub fn few(bytes: &mut [u8]) -> Option<usize>
    ensures { IfSome result (λ count. count ≤ length bytes.new) }
{
    let mut head = [0u8; 2];
    counted(&mut head, bytes)
}

// Bytes whose count has four bytes.
pub fn many(bytes: &mut [u8]) -> Option<usize>
    ensures { IfSome result (λ count. count ≤ length bytes.new) }
{
    let mut head = [0u8; 4];
    counted(&mut head, bytes)
}

// Pairs of bytes as numbers, the higher byte first.
fn decode(raw: &[u8], entries: &mut [u16]) {
    for (entry, pair) in entries.iter_mut().zip(raw.chunks_exact(2)) {
        *entry = u16::from_be_bytes([pair[0], pair[1]]);
    }
}

// Pairs whose count has two bytes, into the start of a slice of at most 8,200: how many.
pub fn pairs(entries: &mut [u16]) -> Option<usize>
    requires { length entries.old ≤ 8200 }
    ensures { IfSome result (λ count. count ≤ length entries.new) }
{
    let count = length(entries.len())?;
    let mut raw = [0u8; 16400];
    let raw = &mut raw[..2 * count];
    fill(raw)?;
    decode(raw, &mut entries[..count]);
    Some(count)
}
