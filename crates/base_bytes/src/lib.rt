// Byte strings: their parts, two of them compared, numbers of two and four bytes, and bytes written into a lent buffer.
// Every function is total, and its contract gives its whole answer and what it leaves in the buffer.
#![tactic(auto)]

ghost use Rattle.std.specs.Prelude.{◌≡◌};
ghost use Rattle.base_bytes.specs.Bytes.{byte, pair_at, four_at, part_of, same_bytes};

mod writer;

pub use writer::Writer;

// Bytes told by their place in a byte string: where the first stands, and how many there are.
#[derive(Clone, Copy)]
pub struct Part {
    pub start: usize,
    pub len: usize,
}

// The bytes that a part names, as far as the byte string has them.
pub fn part_of(bytes: &[u8], part: Part) -> &[u8]
    ensures { result.now ≡ part_of bytes.now part }
{
    let rest = &bytes[part.start.min(bytes.len())..];
    &rest[..part.len.min(rest.len())]
}

// The byte at a place; 00 where there is none.
pub fn byte_at(bytes: &[u8], at: usize) -> u8
    ensures { result ≡ byte bytes.now at }
{
    bytes.get(at).copied().unwrap_or(0)
}

// The number of the two bytes from a place on, high byte first.
pub fn read_pair(bytes: &[u8], at: usize) -> u16
    ensures { result ≡ pair_at bytes.now at }
{
    u16::from_be_bytes([byte_at(bytes, at), byte_at(bytes, at.saturating_add(1))])
}

// The number of the four bytes from a place on, high byte first.
pub fn read_four(bytes: &[u8], at: usize) -> u32
    ensures { result ≡ four_at bytes.now at }
{
    u32::from_be_bytes([
        byte_at(bytes, at),
        byte_at(bytes, at.saturating_add(1)),
        byte_at(bytes, at.saturating_add(2)),
        byte_at(bytes, at.saturating_add(3)),
    ])
}

// Are the two byte strings the same, in length too? Compared from the end, and not by `==`: AIDs begin alike, and those as printed end
// alike in one byte, too (decision B109).
pub fn same(a: &[u8], b: &[u8]) -> bool
    ensures { result ≡ same_bytes a.now b.now }
{
    if a.len() != b.len() {
        return false;
    }
    for i in (0..a.len()).rev() {
        if a[i] != b[i] {
            return false;
        }
    }
    true
}
