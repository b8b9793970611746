// The events of an event file: their kinds, what is wrong with them, and the manager's call that each is (docs/EVENTS.md, 'The file').
// Every function answers for every byte string. Nothing is run here.
#![tactic(auto, unfolding(crate::proofs::Opened::kinds))]

ghost use Rattle.std.specs.Prelude.{◌≡◌, ◌+◌, ◌≤◌, ◌<◌, length};
ghost use Rattle.base_bytes.specs.Bytes.{between};
ghost use Rattle.month_events.specs.Kinds.{kind_of, speaker_size, event_length_wrong};
ghost use Rattle.month_events.specs.Events.{call_over, checked_of, head_size, next_event, stop_of};

use base_bytes::{Part, byte_at, read_four, read_pair};
use record_door::Call;

#[derive(Clone, Copy)]
pub enum Kind {
    Command,
    Keyed,
    Stored,
    // of a logger that knows no mark
    Finished,
    Tick,
    Lost,
    FinishedWithMark,
    Policy,
}

// A number that is no event's kind.
#[derive(Clone, Copy)]
pub struct NoKind;

// What is wrong with the events of a body; of several faults the first of this list.
#[derive(Clone, Copy)]
pub enum EventsWrong {
    CutShort,
    UnknownKind,
    WrongLength,
}

// The event at a place, as the manager's call over the same bytes, and the place after it.
#[derive(Clone, Copy)]
pub struct Next {
    pub call: Call,
    pub stop: usize,
}

// The bytes of an event's kind and length.
const HEAD: usize = 3;

impl TryFrom<u8> for Kind {
    type Error = NoKind;

    ghost try_from_gives = { λ byte r. r ≡ kind_of byte };

    fn try_from(byte: u8) -> Result<Self, NoKind> {
        match byte {
            1 => Ok(Kind::Command),
            2 => Ok(Kind::Keyed),
            3 => Ok(Kind::Stored),
            4 => Ok(Kind::Finished),
            5 => Ok(Kind::Tick),
            6 => Ok(Kind::Lost),
            7 => Ok(Kind::FinishedWithMark),
            8 => Ok(Kind::Policy),
            _ => Err(NoKind),
        }
    }
}

impl Kind {
    // Are these too few or too many bytes for an event of this kind?
    fn length_wrong(self, bytes: &[u8]) -> bool
        ensures { result ≡ event_length_wrong (Ok self) bytes.now }
    {
        let length = bytes.len();
        match self {
            Kind::Command => length < 1,
            Kind::Keyed => false,
            Kind::Stored => length < 4,
            Kind::Finished => length < 1,
            Kind::Tick => length != 0,
            Kind::Lost => length != 0,
            Kind::FinishedWithMark => length < 2,
            Kind::Policy => length < speaker_size(bytes, 0),
        }
    }
}

// The part from one place up to another; empty where that lies before it. `Element::part` of read_tlv is the same one literal, of its own.
fn part(start: usize, stop: usize) -> Part
    ensures { result ≡ between start stop }
{
    Part {
        start,
        len: stop.saturating_sub(start),
    }
}

// The bytes of a speaker's length and of the speaker, at a place.
fn speaker_size(b: &[u8], at: usize) -> usize
    ensures { result ≡ speaker_size b.now at }
{
    let length = byte_at(b, at) as usize;
    1 + length
}

// Where the event at a place stops, as its length says.
fn stop_of(b: &[u8], at: usize) -> usize
    requires { at < length b.now }
    ensures { result ≡ stop_of b.now at }
{
    let length = read_pair(b, at + 1) as usize;
    at + (HEAD + length)
}

// The call of an event whose bytes stand from `from` up to `to`.
fn call_over(b: &[u8], kind: Kind, from: usize, to: usize) -> Call
    requires { from ≤ length b.now }
    ensures { result ≡ call_over b.now (Ok kind) from to }
{
    match kind {
        Kind::Command => Call::Command {
            verdict: byte_at(b, from),
            bytes: part(from + 1, to),
        },
        Kind::Keyed => Call::Keyed(part(from, to)),
        Kind::Stored => Call::Stored {
            aid: part(from + 4, to),
            n: read_four(b, from),
        },
        Kind::Finished => Call::Finished {
            aid: part(from + 1, to),
            policy: byte_at(b, from),
            mark: 1,
        },
        Kind::Tick => Call::Tick,
        Kind::Lost => Call::Lost,
        Kind::FinishedWithMark => Call::Finished {
            aid: part(from + 2, to),
            policy: byte_at(b, from),
            mark: byte_at(b, from + 1),
        },
        Kind::Policy => {
            let stop = from + speaker_size(b, from);
            Call::PolicyUpdate {
                speaker: part(from + 1, stop),
                bytes: part(stop, to),
            }
        }
    }
}

// What is wrong with the events of a body, if anything is, in one walk.
pub fn check_events(b: &[u8]) -> Result<(), EventsWrong>
    ensures { result ≡ checked_of b.now }
{
    // The place goes on by each event's own length.
    let mut at = 0;
    let mut unknown = false;
    let mut wrong = false;
    while at < b.len() {
        let stop = stop_of(b, at);
        if b.len() < stop {
            return Err(EventsWrong::CutShort);
        }
        match Kind::try_from(b[at]) {
            Ok(kind) => wrong |= kind.length_wrong(&b[at + HEAD..stop]),
            Err(NoKind) => unknown = true,
        }
        at = stop;
    }
    if unknown {
        return Err(EventsWrong::UnknownKind);
    }
    if wrong {
        return Err(EventsWrong::WrongLength);
    }
    Ok(())
}

// The event at a place; none where the body ends there or within it. One of no kind is never run (decision B59).
pub fn next_event(b: &[u8], at: usize) -> Option<Next>
    ensures { result ≡ next_event b.now at }
{
    if b.len() <= at {
        return None;
    }
    let stop = stop_of(b, at);
    if b.len() < stop {
        return None;
    }
    let call = match Kind::try_from(b[at]) {
        Ok(kind) => call_over(b, kind, at + HEAD, stop),
        Err(NoKind) => Call::Lost,
    };
    Some(Next { call, stop })
}
