// An answer for a person: the word and what it means, response and notification, the profiles, the phase, an open listing, and the
// ticks to come.
ghost use Rattle.std.specs.Prelude.{◌≡◌, ◌+◌, ◌*◌, ◌≤◌, length};
ghost use Rattle.base_bytes.specs.Put.{Written};
ghost use Rattle.script_answer.specs.Explained.{meaning_of, word_text, response_text, kind_text, issued_text, notice_text};
ghost use Rattle.script_answer.specs.Explained.{open_text, trial_text, phase_text, listing_text, explained_text, most_explained};

use base_bytes::Writer;
use base_status::Status;
use card_record::{Answer, Card, Kind, Notification, Phase};
use script_table::put_table;
use text_aid::put_aid;
use text_words::{put_decimal, put_hex, put_hex_8};

// What a status word means.
fn meaning(status: Status) -> &'static [u8]
    ensures { result.now ≡ meaning_of status }
{
    match status {
        Status::Unsound => b"the card is not sound",
        Status::BufferShort => b"response buffer under 256 bytes",
        Status::LengthWrong => b"command length or length shape wrong",
        Status::ClassWrong => b"class not known",
        Status::InstructionWrong => b"instruction not known",
        Status::ParametersWrong => b"P1 or P2 wrong",
        Status::DataWrong => b"data field or values wrong, or AID already held",
        Status::StateWrong => b"a change is open, or none is, or the target's state is wrong",
        Status::NotHeld => b"target not held, or not the outstanding number, or no listing open",
        Status::PolicyForbids => b"the policy forbids it",
        Status::VerdictWrong => b"token verdict not 1",
        Status::NoRoom => b"no free place, or no room in the memory or the quota",
        Status::More => b"done, more rows to come",
        Status::Done => b"done",
    }
}

fn put_word(out: &mut Writer, status: Status)
    ensures { Written out.old (word_text status) out.new }
{
    let [high, low] = status.number().to_be_bytes();
    put_hex_8(out, high);
    out.byte(b' ');
    put_hex_8(out, low);
    out.byte(b' ');
    out.bytes(meaning(status));
    out.byte(b'\n');
}

fn put_response(out: &mut Writer, response: &[u8])
    ensures { Written out.old (response_text response.now) out.new }
{
    if !response.is_empty() {
        out.bytes(b"response ");
        put_hex(out, response);
        out.byte(b'\n');
    }
}

fn kind_word(kind: Kind) -> &'static [u8]
    ensures { result.now ≡ kind_text kind }
{
    match kind {
        Kind::Silent => b"none",
        Kind::Changed => b"changed",
        Kind::RolledBack => b"rolled back",
        Kind::FallenBack => b"fallen back",
    }
}

fn put_issued(out: &mut Writer, notification: Notification)
    ensures { Written out.old (issued_text notification) out.new }
{
    out.bytes(b"notification ");
    put_decimal(out, notification.number as u64);
    out.bytes(b": ");
    out.bytes(kind_word(notification.kind));
    out.bytes(b", ");
    put_aid(out, notification.aid);
    out.bytes(b" enabled\n");
}

fn put_notice(out: &mut Writer, notification: Notification)
    ensures { Written out.old (notice_text notification) out.new × (length (notice_text notification) ≤ 89) }
{
    match notification.kind {
        Kind::Silent => {}
        _ => put_issued(out, notification),
    }
}

fn put_open(out: &mut Writer, left: u8, number: u16)
    ensures { Written out.old (open_text left number) out.new }
{
    out.bytes(b"ticks left ");
    put_decimal(out, left as u64);
    out.bytes(b", number ");
    put_decimal(out, number as u64);
    out.byte(b'\n');
}

fn put_trial(out: &mut Writer, previous: u8, left: u8, number: u16)
    ensures { Written out.old (trial_text previous left number) out.new }
{
    out.bytes(b"phase trial: previous at place ");
    put_decimal(out, previous as u64);
    out.bytes(b", ");
    put_open(out, left, number);
}

fn put_phase(out: &mut Writer, phase: Phase)
    ensures { Written out.old (phase_text phase) out.new }
{
    match phase {
        Phase::Quiet => out.bytes(b"phase quiet\n"),
        Phase::Trial {
            previous,
            left,
            number,
        } => put_trial(out, previous, left, number),
        Phase::Back { left, number } => {
            out.bytes(b"phase back: ");
            put_open(out, left, number);
        }
        Phase::Fallen { left, number } => {
            out.bytes(b"phase fallen: ");
            put_open(out, left, number);
        }
    }
}

fn put_listing(out: &mut Writer, kept: u8)
    ensures { Written out.old (listing_text kept) out.new }
{
    if kept != Card::NO_PLACE {
        out.bytes(b"listing open: next row at place ");
        put_decimal(out, kept as u64);
        out.byte(b'\n');
    }
}

// The answer for a person; the response is what the call left in its buffer.
pub fn write_explained(out: &mut Writer, answer: &Answer, response: &[u8])
    ensures { Written out.old (explained_text answer.now response.now) out.new × (length (explained_text answer.now response.now) ≤ length response.now * 2 + most_explained) }
{
    put_word(out, answer.status);
    put_response(out, response);
    put_notice(out, answer.notification);
    put_table(out, &answer.card);
    put_phase(out, answer.card.phase);
    put_listing(out, answer.card.kept);
    out.bytes(b"ticks to come ");
    put_decimal(out, answer.ticks as u64);
    out.bytes(b"\n\n");
}
