// A line of the script that cannot be read: `line N: ..`, and what is wrong with it.
ghost use Rattle.std.specs.Prelude.{◌≡◌, ◌≤◌, length};
ghost use Rattle.base_bytes.specs.Put.{Written, Wrote};
ghost use Rattle.script_reply.specs.Reasons.{reason_text, reason_line, most_fault};

use base_bytes::Writer;
use script_words::Reason;
use text_words::put_decimal;

fn words(reason: Reason) -> &'static [u8]
    ensures { result.now ≡ reason_text reason }
{
    match reason {
        Reason::TooLong => b"too long",
        Reason::UnknownWord => b"unknown word",
        Reason::WordsMissing => b"words missing",
        Reason::TooManyWords => b"too many words",
        Reason::BadHex => b"bad hex",
        Reason::BadNumber => b"bad number",
        Reason::BadPlace => b"bad place",
        Reason::BadPhase => b"bad phase",
    }
}

fn put_fault(out: &mut Writer, number: u64, reason: Reason)
    ensures { Written out.old (reason_line number reason) out.new × (length (reason_line number reason) ≤ most_fault) }
{
    out.bytes(b"line ");
    put_decimal(out, number);
    out.bytes(b": ");
    out.bytes(words(reason));
    out.byte(b'\n');
}

// A line of the script that cannot be read, by its number, and what is wrong with it.
// Buffer and place, no writer: `take_line` is lent them, and its promise is `Wrote`.
pub fn write_reason(number: u64, reason: Reason, buf: &mut [u8], at: usize) -> usize
    ensures { Wrote buf.old at (reason_line number reason) result buf.new × (length (reason_line number reason) ≤ most_fault) }
{
    let mut out = Writer::new(buf, at);
    put_fault(&mut out, number, reason);
    out.at
}
