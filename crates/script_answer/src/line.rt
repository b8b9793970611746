// One line for each call, `SW RESPONSE NOTIFICATION TICKS`.
ghost use Rattle.std.specs.Prelude.{◌≡◌, ◌+◌, ◌*◌, ◌≤◌, length};
ghost use Rattle.base_bytes.specs.Put.{Written};
ghost use Rattle.script_answer.specs.Lines.{issued_word, notice_word, answer_line, most_answer_line};

use base_bytes::Writer;
use card_record::{Answer, Kind, Notification};
use text_aid::put_aid;
use text_words::{put_decimal, put_hex_8, put_hex_16, put_hex_word};

fn put_issued(out: &mut Writer, notification: Notification)
    ensures { Written out.old (issued_word notification) out.new }
{
    put_hex_8(out, notification.kind.code());
    out.byte(b':');
    put_hex_16(out, notification.number);
    out.byte(b':');
    put_aid(out, notification.aid);
}

fn put_notice(out: &mut Writer, notification: Notification)
    ensures { Written out.old (notice_word notification) out.new × (length (notice_word notification) ≤ 40) }
{
    match notification.kind {
        Kind::Silent => out.byte(b'-'),
        _ => put_issued(out, notification),
    }
}

// The line of an answer; the response is what the call left in its buffer.
pub fn write_answer(out: &mut Writer, answer: &Answer, response: &[u8])
    ensures { Written out.old (answer_line answer.now response.now) out.new × (length (answer_line answer.now response.now) ≤ length response.now * 2 + most_answer_line) }
{
    put_hex_16(out, answer.status.number());
    out.byte(b' ');
    put_hex_word(out, response);
    out.byte(b' ');
    put_notice(out, answer.notification);
    out.byte(b' ');
    put_decimal(out, answer.ticks as u64);
    out.byte(b'\n');
}
