// Byte strings in hex, of either case; `-` is the byte string of no bytes.
ghost use Rattle.std.specs.Prelude.{◌≡◌, ◌+◌, ◌*◌, ◌≤◌, ◌<◌, IfSome, is_some, length};
ghost use Rattle.std.specs.List.{list_all};
ghost use Rattle.base_bytes.specs.Put.{put};
ghost use Rattle.text_words.specs.Hex.{nibble_of, byte_of, pairs_of, is_hex, spelled, spelled_in, hex_byte_of, hex_read_of, hex_left};

use base_bytes::same;

// The value of a hex digit.
fn nibble(c: u8) -> Option<u8>
    ensures value { result ≡ nibble_of c }
    ensures below { IfSome result (λ d. d < 16) }
{
    match c {
        b'0'..=b'9' => Some(c - b'0'),
        b'A'..=b'F' => Some(c - 55),
        b'a'..=b'f' => Some(c - 87),
        _ => None,
    }
}

// The byte that two digits spell; what is no digit counts as 0.
fn byte_of(a: u8, b: u8) -> u8
    ensures { result ≡ byte_of a b }
{
    nibble(a).unwrap_or(0) * 16 + nibble(b).unwrap_or(0)
}

// The byte that a text of exactly two digits spells.
pub fn hex_byte(s: &[u8]) -> Option<u8>
    ensures { result ≡ hex_byte_of s.now }
{
    let [a, b] = s else {
        return None;
    };
    Some(nibble(*a)? * 16 + nibble(*b)?)
}

// Are all bytes digits?
fn digits(s: &[u8]) -> bool
    ensures { result ≡ list_all (λ c. is_some (nibble_of c)) s.now }
{
    s.iter().all(|c| nibble(*c).is_some())
}

// Is the text pairs of digits?
fn pairs(s: &[u8]) -> bool
    ensures { result ≡ pairs_of s.now }
{
    s.len() % 2 == 0 && digits(s)
}

// Is this a byte string in hex?
pub fn is_hex(s: &[u8]) -> bool
    ensures { result ≡ is_hex s.now }
{
    !s.is_empty() && (same(s, b"-") || pairs(s))
}

// The bytes that pairs of digits spell, to the start of a lent buffer.
fn spell(s: &[u8], out: &mut [u8])
    requires { length s.now ≤ length out.old * 2 + 1 }
    ensures { out.new ≡ put out.old 0 (spelled s.now) }
{
    // By number: `chunks_exact` and `iter_mut` tell a proof nothing of the elements (docs/PERFORMANCE.md: spelled by pairs).
    for k in 0..s.len() / 2 {
        out[k] = byte_of(s[k * 2], s[k * 2 + 1]);
    }
}

// The same for any buffer, and how many bytes there are; where they do not fit, none is written. It does not ask whether the text is
// hex: it is for a word that was found to be.
pub fn spell_hex(s: &[u8], out: &mut [u8]) -> usize
    ensures { (result ≡ length (spelled_in s.now (length out.old)))
        × (out.new ≡ put out.old 0 (spelled_in s.now (length out.old))) }
{
    let n = s.len() / 2;
    if out.len() < n {
        return 0;
    }
    spell(s, out);
    n
}

// Why a text gives no bytes: those it spells do not fit, or it is not hex.
#[derive(Clone, Copy)]
pub enum HexError {
    NoRoom,
    Wrong,
}

// A byte string in hex, to the start of a lent buffer, and how many bytes it has. Where it is refused, nothing is written.
pub fn read_hex(s: &[u8], out: &mut [u8]) -> Result<usize, HexError>
    ensures { (result ≡ hex_read_of s.now (length out.old))
        × (out.new ≡ put out.old 0 (hex_left s.now (length out.old))) }
{
    if !is_hex(s) {
        return Err(HexError::Wrong);
    }
    let n = s.len() / 2;
    if out.len() < n {
        return Err(HexError::NoRoom);
    }
    spell(s, out);
    Ok(n)
}
