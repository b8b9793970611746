// What a line of a script means: the order that it gives, by its first word, or what is wrong with it.
// Every function answers for every line.
#![tactic(auto, unfolding(crate::proofs::Opened::orders))]

ghost use Rattle.std.specs.Prelude.{◌≡◌, ◌≤◌, Ok, IfOk};
ghost use Rattle.script_words.specs.Words.{read_to, moved};
ghost use Rattle.script_line.specs.Orders.{verb_of, count_ok, inner, value_or, sent_at, fresh_with, fresh_at, command_at, keyed_at, stored_at, finished_at, policy_line_at, words_for, order_by, order_of};

use base_bytes::{Part, same};
use card_record::Card;
use record_door::{Call, LEAST_BUFFER};
use script_words::{MOST_NUMBER, Reason, Words};
use text_lines::LONGEST;
use text_words::{Span, count_words, next_word};

// What a `fresh` line asks for.
#[derive(Clone, Copy)]
pub struct Fresh {
    pub eid: Part,
    pub aid: Part,
    pub capacity: u32,
    pub quota: u32,
    pub used: u32,
    pub volatile: u32,
}

// A byte string stays in the line, where a part names the word that spells it: an order holds no bytes.
// `Nothing` is a case and no Option: it is answered like the others (`ordered_by`).
#[derive(Clone, Copy)]
pub enum Order {
    Nothing,
    Fresh(Fresh),
    // The call, and the length of the response buffer lent to it.
    Call { call: Call, room: usize },
    // The record's words begin at this place; `script_record::record_at` reads them.
    Record(usize),
}

// The largest response buffer that a line may ask for.
pub const MOST_ROOM: usize = 1024;

// The words of a `card` line: nine, and one for each place.
const RECORD: usize = 9 + Card::PLACES;

#[derive(Clone, Copy)]
pub enum Verb {
    Fresh,
    Command,
    Keyed,
    Stored,
    Finished,
    Tick,
    Lost,
    Policy,
    Card,
}

impl Verb {
    // A line of this verb has from so many words to so many, the verb among them.
    fn words(self) -> (usize, usize)
        ensures { result ≡ words_for self }
    {
        match self {
            Verb::Tick | Verb::Lost => (1, 1),
            Verb::Keyed => (2, 2),
            Verb::Stored => (3, 3),
            Verb::Command | Verb::Finished | Verb::Policy => (3, 4),
            Verb::Fresh => (7, 7),
            Verb::Card => (RECORD, RECORD),
        }
    }
}

// Word after word, as in the table of the definition: a `match` on the byte strings is proved byte by byte, and its goals stay open.
fn verb_of(w: &[u8]) -> Option<Verb>
    ensures { result ≡ verb_of w.now }
{
    if same(w, b"fresh") {
        return Some(Verb::Fresh);
    }
    if same(w, b"command") {
        return Some(Verb::Command);
    }
    if same(w, b"keyed") {
        return Some(Verb::Keyed);
    }
    if same(w, b"stored") {
        return Some(Verb::Stored);
    }
    if same(w, b"finished") {
        return Some(Verb::Finished);
    }
    if same(w, b"tick") {
        return Some(Verb::Tick);
    }
    if same(w, b"lost") {
        return Some(Verb::Lost);
    }
    if same(w, b"policy") {
        return Some(Verb::Policy);
    }
    if same(w, b"card") {
        return Some(Verb::Card);
    }
    None
}

// The line has from `least` to `most` words.
fn count_ok(least: usize, most: usize, n: usize) -> Result<(), Reason>
    ensures { result ≡ count_ok least most n }
{
    if n < least {
        return Err(Reason::WordsMissing);
    }
    if most < n {
        return Err(Reason::TooManyWords);
    }
    Ok(())
}

// CAPACITY QUOTA USED VOLATILE.
fn fresh_with(mut words: Words<'_>, eid: Part, aid: Part) -> Result<Order, Reason>
    ensures { result ≡ fresh_with words.entry.line.now words.entry.at eid aid }
{
    let capacity = words.value(MOST_NUMBER)?;
    let quota = words.value(MOST_NUMBER)?;
    let used = words.value(MOST_NUMBER)?;
    let volatile = words.value(MOST_NUMBER)?;
    Ok(Order::Fresh(Fresh {
        eid,
        aid,
        capacity,
        quota,
        used,
        volatile,
    }))
}

fn fresh_order(mut words: Words<'_>) -> Result<Order, Reason>
    ensures { result ≡ fresh_at words.entry.line.now words.entry.at }
{
    let eid = words.bytes()?;
    let aid = words.bytes()?;
    fresh_with(words, eid, aid)
}

// The last word, a number, which may be missing and then counts as `missing`.
fn next_or(words: &mut Words<'_>, missing: u32, most: u32) -> Result<u32, Reason>
    ensures found { read_to result words.new.at ≡ value_or missing most words.old.line.now words.old.at }
    ensures within { missing ≤ most → IfOk result (λ n. n ≤ most) }
    ensures moved { words.new ≡ moved words.old }
{
    if next_word(words.line, words.at).is_none() {
        return Ok(missing);
    }
    words.value(most)
}

// A command as it was sent, and the length of the response buffer lent to it.
#[derive(Clone, Copy)]
pub struct Sent {
    pub bytes: Part,
    pub room: usize,
}

fn next_sent(mut words: Words<'_>) -> Result<Sent, Reason>
    ensures { result ≡ sent_at words.entry.line.now words.entry.at }
{
    let bytes = words.bytes()?;
    let length = next_or(&mut words, LEAST_BUFFER as u32, MOST_ROOM as u32)?;
    Ok(Sent {
        bytes,
        room: length as usize,
    })
}

fn command_order(mut words: Words<'_>) -> Result<Order, Reason>
    ensures { result ≡ command_at words.entry.line.now words.entry.at }
{
    let verdict = words.value(255)?;
    let Sent { bytes, room } = next_sent(words)?;
    let call = Call::Command {
        verdict: verdict as u8,
        bytes,
    };
    Ok(Order::Call { call, room })
}

fn policy_order(mut words: Words<'_>) -> Result<Order, Reason>
    ensures { result ≡ policy_line_at words.entry.line.now words.entry.at }
{
    let speaker = words.bytes()?;
    let Sent { bytes, room } = next_sent(words)?;
    let call = Call::PolicyUpdate { speaker, bytes };
    Ok(Order::Call { call, room })
}

// A call that has no response lends no buffer.
fn inner(call: Call) -> Order
    ensures { result ≡ inner call }
{
    Order::Call { call, room: 0 }
}

fn keyed_order(mut words: Words<'_>) -> Result<Order, Reason>
    ensures { result ≡ keyed_at words.entry.line.now words.entry.at }
{
    let aid = words.bytes()?;
    Ok(inner(Call::Keyed(aid)))
}

fn stored_order(mut words: Words<'_>) -> Result<Order, Reason>
    ensures { result ≡ stored_at words.entry.line.now words.entry.at }
{
    let aid = words.bytes()?;
    let n = words.value(MOST_NUMBER)?;
    Ok(inner(Call::Stored { aid, n }))
}

fn finished_order(mut words: Words<'_>) -> Result<Order, Reason>
    ensures { result ≡ finished_at words.entry.line.now words.entry.at }
{
    let aid = words.bytes()?;
    let policy = words.value(255)?;
    let mark = next_or(&mut words, 1, 255)?;
    Ok(inner(Call::Finished {
        aid,
        policy: policy as u8,
        mark: mark as u8,
    }))
}

// The order by its first word, of a line of n words.
// A match and no table of functions: each verb has its own reader.
fn order_by(verb: Verb, n: usize, words: Words<'_>) -> Result<Order, Reason>
    ensures { result ≡ order_by verb n words.entry.line.now words.entry.at }
{
    let (least, most) = verb.words();
    count_ok(least, most, n)?;
    match verb {
        Verb::Fresh => fresh_order(words),
        Verb::Command => command_order(words),
        Verb::Keyed => keyed_order(words),
        Verb::Stored => stored_order(words),
        Verb::Finished => finished_order(words),
        Verb::Tick => Ok(inner(Call::Tick)),
        Verb::Lost => Ok(inner(Call::Lost)),
        Verb::Policy => policy_order(words),
        Verb::Card => Ok(Order::Record(words.at)),
    }
}

// What a line says, given without its line end.
pub fn read_line(s: &[u8]) -> Result<Order, Reason>
    ensures { result ≡ order_of s.now }
{
    if LONGEST < s.len() {
        return Err(Reason::TooLong);
    }
    let Some(Span { from, to }) = next_word(s, 0) else {
        return Ok(Order::Nothing);
    };
    if s[from] == b'#' {
        return Ok(Order::Nothing);
    }
    let verb = verb_of(&s[from..to]).ok_or(Reason::UnknownWord)?;
    order_by(verb, count_words(s), Words::new(s, to))
}
