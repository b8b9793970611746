// An event file opened: refused by name, or the fresh card that it makes and where its events lie (docs/EVENTS.md, 'What is refused').
// Every byte string is answered, and no event is run here.
#![tactic(auto)]

ghost use Rattle.std.specs.Prelude.{◌≡◌};
ghost use Rattle.card_record.specs.Answers.{as_answer};
ghost use Rattle.month_file.specs.Inputs.{fresh_answer};
ghost use Rattle.month_file.specs.File.{opened_of};
ghost use Rattle.month_file.specs.Refusals.{refusal_for};

use base_bytes::{Part, part_of, read_four};
use card_record::{Answer, Card, Inputs};
use month_contents::{EVENTS, FRESH, contents_wrong, section_of};
use month_events::{EventsWrong, check_events};

#[derive(Clone, Copy)]
pub enum Refusal {
    ContentsWrong,
    SectionMissing,
    FreshBad,
    CutShort,
    UnknownKind,
    WrongLength,
}

impl From<EventsWrong> for Refusal {
    ghost from_gives = { λ wrong r. r ≡ refusal_for wrong };

    fn from(wrong: EventsWrong) -> Refusal {
        match wrong {
            EventsWrong::CutShort => Refusal::CutShort,
            EventsWrong::UnknownKind => Refusal::UnknownKind,
            EventsWrong::WrongLength => Refusal::WrongLength,
        }
    }
}

// The fresh card and the events' body.
#[derive(Clone, Copy)]
pub struct Opened {
    pub card: Card,
    pub events: Part,
}

// The fresh card's inputs without their AID.
const INPUTS: usize = 32;

// What the fresh call answers to inputs as they stand in a file; a byte that they lack is 00.
fn fresh_answer(f: &[u8]) -> Answer
    ensures { result ≡ as_answer (fresh_answer f.now) }
{
    let eid = Part { start: 0, len: 16 };
    let aid = Part {
        start: INPUTS,
        len: f.len(),
    };
    record_door::fresh(&Inputs {
        eid: part_of(f, eid),
        aid: part_of(f, aid),
        capacity: read_four(f, 16),
        quota: read_four(f, 20),
        used: read_four(f, 24),
        volatile: read_four(f, 28),
    })
}

// A file opened: each refusal is asked of the whole file before the next.
pub fn open(s: &[u8]) -> Result<Opened, Refusal>
    ensures { result ≡ opened_of s.now }
{
    if contents_wrong(s) {
        return Err(Refusal::ContentsWrong);
    }
    let inputs = section_of(s, FRESH).ok_or(Refusal::SectionMissing)?;
    let events = section_of(s, EVENTS).ok_or(Refusal::SectionMissing)?;
    let fresh = part_of(s, inputs);
    if fresh.len() < INPUTS {
        return Err(Refusal::FreshBad);
    }
    let answer = fresh_answer(fresh);
    if !answer.status.is_done() {
        return Err(Refusal::FreshBad);
    }
    check_events(part_of(s, events))?;
    Ok(Opened {
        card: answer.card,
        events,
    })
}
