// Text written by a writer, as `base_bytes` writes bytes: what does not fit is dropped.
ghost use Rattle.std.specs.Prelude.{◌≡◌, ◌∷◌, [], ◌*◌, ◌/◌, ◌%◌, length};
ghost use Rattle.base_bytes.specs.Put.{Written, Wrote};
ghost use Rattle.text_words.specs.Numbers.{decimal_text};
ghost use Rattle.text_words.specs.Hex.{glyph_of, hex_text, hex_word};

use base_bytes::Writer;

// The hex digit of the low four bits.
fn glyph(n: u8) -> u8
    ensures { result ≡ glyph_of n }
{
    let d = n % 16;
    if d < 10 { b'0' + d } else { b'A' - 10 + d }
}

// A byte as two hex digits.
pub fn put_hex_8(out: &mut Writer, n: u8)
    ensures { Written out.old (hex_text (n ∷ [])) out.new }
{
    out.byte(glyph(n / 16));
    out.byte(glyph(n));
}

// A number of 16 bits as four hex digits.
pub fn put_hex_16(out: &mut Writer, n: u16)
    ensures { Written out.old (hex_text (n / 256 ∷ n % 256 ∷ [])) out.new }
{
    let [high, low] = n.to_be_bytes();
    put_hex_8(out, high);
    put_hex_8(out, low);
}

// The digits of all bytes, over a part of a buffer that is as long: no digit is asked for its room.
fn fill_hex(room: &mut [u8], s: &[u8])
    requires { length room.old ≡ length s.now * 2 }
    ensures { room.new ≡ hex_text s.now }
{
    for (i, n) in s.iter().enumerate() {
        room[i * 2] = glyph(*n / 16);
        room[i * 2 + 1] = glyph(*n);
    }
}

// A byte string in hex, two digits a byte. Room is asked for once, as almost every text has it; else as many digits as there is room
// for are written.
pub fn put_hex(out: &mut Writer, s: &[u8])
    ensures { Written out.old (hex_text s.now) out.new }
{
    // named, since the buffer behind it is lent on
    let at = out.at;
    let size = out.buf.len();
    if at <= size && s.len() <= (size - at) / 2 {
        let end = at + s.len() * 2;
        fill_hex(&mut out.buf[at..end], s);
        out.at = end;
    } else {
        for n in s {
            put_hex_8(out, *n);
        }
    }
}

// The same as a word: `-` where there is no byte.
pub fn put_hex_word(out: &mut Writer, s: &[u8])
    ensures { Written out.old (hex_word s.now) out.new }
{
    if s.is_empty() {
        out.byte(b'-');
    } else {
        put_hex(out, s);
    }
}

// One byte from a place of the buffer on; up to where it is then filled.
fn one(buf: &mut [u8], at: usize, byte: u8) -> usize
    ensures { Wrote buf.old at (byte ∷ []) result buf.new }
{
    let mut out = Writer::new(buf, at);
    out.byte(byte);
    out.at
}

// The digits of a number from a place of the buffer on: the digits before the last one, then the last.
// Buffer and place, no writer: one that is lent to a function that calls itself keeps its place in memory in all that it writes.
fn put_digits(buf: &mut [u8], at: usize, n: u64) -> usize
    ensures { Wrote buf.old at (decimal_text n) result buf.new }
{
    if n < 10 {
        return one(buf, at, b'0' + n as u8);
    }
    let place = put_digits(buf, at, n / 10);
    one(buf, place, b'0' + (n % 10) as u8)
}

// A number in decimal, with no zeros in front.
pub fn put_decimal(out: &mut Writer, n: u64)
    ensures { Written out.old (decimal_text n) out.new }
{
    out.at = put_digits(out.buf, out.at, n);
}
