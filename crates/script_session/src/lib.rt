// A session with a script: a line in, its answer out. Nothing here reads or writes a file.
// A line that cannot be read stops the run; every other line is answered, whatever it asks.
#![tactic(auto)]

mod reasons;

ghost use Rattle.std.specs.Prelude.{◌≡◌, true, false, [], ◌+◌, ◌*◌, ◌≤◌, length};
ghost use Rattle.base_bytes.specs.Put.{put, Wrote, Written};
ghost use Rattle.base_status.specs.StatusWords.{is_done};
ghost use Rattle.card_record.specs.Answers.{as_answer};
ghost use Rattle.card_record.specs.Fresh.{fresh_outcome};
ghost use Rattle.record_door.specs.Door.{call_of};
ghost use Rattle.record_door.specs.Door.{Served};
ghost use Rattle.record_door.specs.declared.Call.TheVariants.{PolicyUpdate};
ghost use Rattle.script_words.specs.Arguments.{on_ok};
ghost use Rattle.script_record.specs.Records.{record_at};
ghost use Rattle.script_line.specs.Orders.{most_buffer};
ghost use Rattle.script_answer.specs.Explained.{most_explained};
ghost use Rattle.script_reply.specs.Replies.{most_bytes, spelled_bytes, bytes_in, call_spelled, record_outcome, answer_text, reply_of, first_reply, no_reply, fault_reply, answer_to, reply_to_line, most_text};
ghost use Rattle.script_session.specs.Session.{first_turn, LaidOut, Replied, Used};

use base_bytes::{Part, Writer, part_of};
use base_status::Status;
use card_isdp::Aid;
use card_record::{Answer, Card, Inputs};
use reasons::write_reason;
use record_door::Call;
use script_answer::{write_answer, write_explained};
use script_line::{Fresh, MOST_ROOM, Order, read_line};
use script_record::record_at;
use script_words::Words;
use text_words::spell_hex;

// Where a session stands: its card, whether that card is known to be sound, up to where the lent buffer is filled, and whether the run
// goes on. Soundness is asked where a card is handed in, and kept: every call leaves a sound card sound. Where it is not known, each
// call asks for itself (decision B29). The two flags are of the session's state, as in the `Reply` of a line; no value hangs on them.
#[derive(Clone, Copy)]
pub struct Turn {
    pub card: Card,
    pub sound: bool,
    pub filled: usize,
    pub goes: bool,
}

impl Turn {
    // Before the first line.
    pub fn first() -> Turn
        ensures { result ≡ first_turn }
    {
        let card = Card::zero();
        Turn {
            card,
            sound: false,
            filled: 0,
            goes: true,
        }
    }
}

// The byte strings of a line's call have together at most so many bytes.
pub const MOST_BYTES: usize = 2048;

// The bytes that a part of the line spells, written to the front of a lent buffer: the part of the buffer that they are then.
fn spell(s: &[u8], part: Part, out: &mut [u8]) -> Part
    requires { length (spelled_bytes s.now part) ≤ length out.old }
    ensures { (result ≡ record { start = 0; len = length (spelled_bytes s.now part) }) × (out.new ≡ put out.old 0 (spelled_bytes s.now part)) }
{
    let n = spell_hex(part_of(s, part), out);
    Part { start: 0, len: n }
}

// A policy update over the buffer: the speaker first, and the command after it.
fn lay_update(s: &[u8], speaker: Part, bytes: Part, out: &mut [u8]) -> Call
    requires { length (bytes_in s.now (PolicyUpdate speaker bytes)) ≤ length out.old }
    ensures { LaidOut out.old s.now (PolicyUpdate speaker bytes) result out.new }
{
    let first = spell(s, speaker, out);
    let second = spell(s, bytes, &mut out[first.len..]);
    Call::PolicyUpdate {
        speaker: first,
        bytes: Part {
            start: first.len,
            len: second.len,
        },
    }
}

// The line's call over the buffer that the bytes of its words are written to.
fn lay(s: &[u8], call: Call, out: &mut [u8]) -> Call
    requires { length (bytes_in s.now call) ≤ length out.old }
    ensures { LaidOut out.old s.now call result out.new }
{
    match call {
        Call::Command { verdict, bytes } => Call::Command {
            verdict,
            bytes: spell(s, bytes, out),
        },
        Call::Keyed(aid) => Call::Keyed(spell(s, aid, out)),
        Call::Stored { aid, n } => Call::Stored {
            aid: spell(s, aid, out),
            n,
        },
        Call::Finished { aid, policy, mark } => Call::Finished {
            aid: spell(s, aid, out),
            policy,
            mark,
        },
        Call::Tick => Call::Tick,
        Call::Lost => Call::Lost,
        Call::PolicyUpdate { speaker, bytes } => lay_update(s, speaker, bytes, out),
    }
}

fn fresh(s: &[u8], asked: Fresh) -> Answer
    requires { (length (spelled_bytes s.now asked.eid) ≤ most_bytes) × (length (spelled_bytes s.now asked.aid) ≤ most_bytes) }
    ensures { result ≡ as_answer (fresh_outcome (spelled_bytes s.now asked.eid) (spelled_bytes s.now asked.aid) asked.capacity asked.quota asked.used asked.volatile) }
{
    let mut first = [0u8; MOST_BYTES];
    let m = spell(s, asked.eid, &mut first);
    let mut second = [0u8; MOST_BYTES];
    let n = spell(s, asked.aid, &mut second);
    record_door::fresh(&Inputs {
        eid: part_of(&first, m),
        aid: part_of(&second, n),
        capacity: asked.capacity,
        quota: asked.quota,
        used: asked.used,
        volatile: asked.volatile,
    })
}

// Any record, handed in as the card.
fn hand_in(card: Card) -> Answer
    ensures { result ≡ as_answer (record_outcome card) }
{
    if !card.is_sound() {
        return card.unsound();
    }
    card.step_since(card.last, Aid::none())
        .answer(Status::Done, 0)
}

// An answer written out, on one line or for a person.
fn put_text(out: &mut Writer, explain: bool, answer: &Answer, response: &[u8])
    ensures { Written out.old (answer_text explain answer.now response.now) out.new × (length (answer_text explain answer.now response.now) ≤ length response.now * 2 + most_explained) }
{
    if explain {
        write_explained(out, answer, response);
    } else {
        write_answer(out, answer, response);
    }
}

// The same from a place of the buffer on; up to where it is then filled.
// Buffer and place, no writer: `take_line` is lent them, and its promise is `Wrote`.
fn write_text(explain: bool, answer: &Answer, response: &[u8], out: &mut [u8], at: usize) -> usize
    ensures { Wrote out.old at (answer_text explain answer.now response.now) result out.new × (length (answer_text explain answer.now response.now) ≤ length response.now * 2 + most_explained) }
{
    let mut writer = Writer::new(out, at);
    put_text(&mut writer, explain, answer, response);
    writer.at
}

// The answer of a call that hands in a card: it is sound exactly where the call is accepted, and it has no response.
// Buffer and place, as in `write_text`.
fn first_reply(explain: bool, answer: Answer, out: &mut [u8], at: usize) -> Turn
    ensures { (result.card ≡ answer.card) × ((result.sound ≡ is_done answer.status) × ((result.goes ≡ true) × (Wrote out.old at (answer_text explain answer []) result.filled out.new × (length (answer_text explain answer []) ≤ most_text)))) }
{
    let filled = write_text(explain, &answer, &[], out, at);
    Turn {
        card: answer.card,
        sound: answer.status.is_done(),
        filled,
        goes: true,
    }
}

// A call on a card known to be sound, or on one that has to be asked.
fn answer_to(sound: bool, card: Card, call: Call, bytes: &[u8], buf: &mut [u8]) -> Answer
    ensures { Served buf.old (answer_to sound card (call_of bytes.now (length buf.old) call)) result buf.new }
{
    if sound {
        return record_door::answer_on_sound(card, call, bytes, buf);
    }
    record_door::answer(card, call, bytes, buf)
}

// A call of the line, whose bytes and response stand in the buffers lent, piece by piece as to `take_line`.
fn call_reply(
    turn: Turn,
    explain: bool,
    call: Call,
    room: usize,
    s: &[u8],
    bytes: &mut [u8],
    response: &mut [u8],
    out: &mut [u8],
) -> Turn
    requires { ((length (bytes_in s.now call) ≤ most_bytes) × (room ≤ most_buffer)) × ((length bytes.old ≡ most_bytes) × (length response.old ≡ most_buffer)) }
    ensures { Replied out.old turn.filled (reply_of explain turn.sound (bytes_in s.now call) (answer_to turn.sound turn.card (call_spelled s.now room call))) result out.new × Used bytes.old response.old (reply_of explain turn.sound (bytes_in s.now call) (answer_to turn.sound turn.card (call_spelled s.now room call))) bytes.new response.new }
{
    let laid = lay(s, call, bytes);
    let answer = answer_to(turn.sound, turn.card, laid, bytes, &mut response[..room]);
    let filled = write_text(
        explain,
        &answer,
        &response[..answer.length],
        out,
        turn.filled,
    );
    Turn {
        card: answer.card,
        filled,
        goes: true,
        ..turn
    }
}

// A line that cannot be read stops the run, once it is named.
fn stopped(turn: Turn, filled: usize) -> Turn
    ensures { result ≡ record { card = turn.card; sound = turn.sound; filled = filled; goes = false } }
{
    Turn {
        filled,
        goes: false,
        ..turn
    }
}

// A line that asks nothing.
fn passed_over(turn: Turn) -> Turn
    ensures { result ≡ record { card = turn.card; sound = turn.sound; filled = turn.filled; goes = true } }
{
    Turn { goes: true, ..turn }
}

// A line whose words from this place on are those of a record.
fn record_reply(turn: Turn, explain: bool, number: u64, words: Words<'_>, out: &mut [u8]) -> Turn
    ensures { Replied out.old turn.filled (on_ok (record_at words.entry.line.now words.entry.at) (fault_reply turn.card turn.sound number) (λ d. first_reply explain (record_outcome d))) result out.new }
{
    match record_at(words) {
        Ok(card) => first_reply(explain, hand_in(card), out, turn.filled),
        Err(reason) => stopped(turn, write_reason(number, reason, out, turn.filled)),
    }
}

// Line `number` of a script. Two buffers are lent for a call's bytes and its response: what is in them before does not matter.
// The memory is lent piece by piece: README names `take_line` and what it leaves in each.
pub fn take_line(
    turn: Turn,
    explain: bool,
    number: u64,
    s: &[u8],
    bytes: &mut [u8; MOST_BYTES],
    response: &mut [u8; MOST_ROOM],
    out: &mut [u8],
) -> Turn
    ensures { Replied out.old turn.filled (reply_to_line turn.card turn.sound explain number s.now) result out.new × Used bytes.old response.old (reply_to_line turn.card turn.sound explain number s.now) bytes.new response.new }
{
    match read_line(s) {
        // `return`, here and for a call: the turn is not copied (docs/PERFORMANCE.md)
        Ok(Order::Nothing) => return passed_over(turn),
        Ok(Order::Fresh(asked)) => first_reply(explain, fresh(s, asked), out, turn.filled),
        Ok(Order::Call { call, room }) => {
            return call_reply(turn, explain, call, room, s, bytes, response, out);
        }
        Ok(Order::Record(at)) => record_reply(turn, explain, number, Words { line: s, at }, out),
        Err(reason) => stopped(turn, write_reason(number, reason, out, turn.filled)),
    }
}
