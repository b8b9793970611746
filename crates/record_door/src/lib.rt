// The manager of the root domain: one door for every call, answered whole. What each call does stands in `record_calls`.
// `answer` asks first whether the card is sound; `answer_on_sound` is the same for a card known to be, for runs of many calls
// (decision B10).
#![tactic(auto)]

ghost use Rattle.std.specs.Prelude.{◌≡◌, ◌≤◌, length};
ghost use Rattle.card_record.specs.Answers.{as_answer, outcome_on_sound};
ghost use Rattle.card_record.specs.Fresh.{fresh_outcome};
ghost use Rattle.rule_steps.specs.Steps.{asked_work};
ghost use Rattle.rule_run.specs.Calls.{Call.Command, Call.PolicyUpdate, request_asks};
ghost use Rattle.rule_run.specs.Table.{least_buffer};
ghost use Rattle.rule_run.specs.Step.{step, on_sound};
ghost use Rattle.record_door.specs.Door.{call_of, Served};

use base_bytes::{Part, part_of};
use base_status::Status;
use card_record::{Answer, Card, Inputs};
use read_command::{Request, read};
use read_frame::word;

// A call over the bytes that it came in: each part names some of them (decisions B15, B16, B32).
#[derive(Clone, Copy)]
pub enum Call {
    // with the token verdict, any byte: the table asks whether it is 1
    Command { verdict: u8, bytes: Part },
    Keyed(Part),
    Stored { aid: Part, n: u32 },
    // with its policy and its mark of provisioning capability
    Finished { aid: Part, policy: u8, mark: u8 },
    Tick,
    Lost,
    // of an operator's domain: the AID of the profile that it belongs to, and the command that it was sent
    PolicyUpdate { speaker: Part, bytes: Part },
}

// A lent response buffer has at least so many bytes.
pub const LEAST_BUFFER: usize = 256;

// What a request asks, done on a card known to be sound.
fn serve(card: Card, verdict: u8, request: Request, bytes: &[u8], buf: &mut [u8]) -> Answer
    requires { least_buffer ≤ length buf.old }
    ensures { Served buf.old (outcome_on_sound card (asked_work card (request_asks verdict bytes.now request))) result buf.new }
{
    match request {
        Request::Create { aid, quota } => {
            record_calls::create(card, part_of(bytes, aid), quota, buf)
        }
        Request::Enable(aid) => record_calls::enable(card, part_of(bytes, aid)),
        Request::Disable(aid) => record_calls::disable(card, part_of(bytes, aid)),
        Request::SetFallBack(aid) => record_calls::set_fall_back(card, part_of(bytes, aid)),
        Request::Delete(aid) => record_calls::delete(card, part_of(bytes, aid), buf),
        Request::MasterDelete(aid) => {
            record_calls::master_delete(card, part_of(bytes, aid), verdict, buf)
        }
        Request::Confirm(number) => record_calls::confirm(card, number, buf),
        Request::GetStatusOfAll { next, tags } => {
            record_calls::status_of_all(card, next, tags, buf)
        }
        Request::GetStatusOfOne { aid, tags } => {
            record_calls::status_of_one(card, part_of(bytes, aid), tags, buf)
        }
        Request::GetData => record_calls::get_data(card, buf),
    }
}

// A command: it is read, and what it asks is done. A function of its own, so that the other calls take no stack for it.
#[inline(never)]
fn command(card: Card, verdict: u8, bytes: &[u8], buf: &mut [u8]) -> Answer
    ensures { Served buf.old (on_sound card (Command verdict bytes.now (length buf.old))) result buf.new }
{
    if buf.len() < LEAST_BUFFER {
        return card.refused(Status::BufferShort);
    }
    // the copy that `serve` takes is made here, and not where the door is entered (decision B42)
    let served = card;
    let reading = read(bytes, card.capacity);
    let Ok(request) = reading else {
        return served.refused(word(reading));
    };
    serve(served, verdict, request, bytes, buf)
}

// A policy update: it is read, and what it asks is done for the profile whose domain speaks.
fn policy(card: Card, speaker: &[u8], bytes: &[u8], buf: &mut [u8]) -> Answer
    ensures { Served buf.old (on_sound card (PolicyUpdate speaker.now bytes.now (length buf.old))) result buf.new }
{
    if buf.len() < LEAST_BUFFER {
        return card.refused(Status::BufferShort);
    }
    let update = read_operator::read(bytes);
    let Ok(policy) = update else {
        return card.refused(word(update));
    };
    record_calls::set_policy(card, speaker, policy)
}

// A call on a card known to be sound, with the bytes it came in and the buffer lent for its response.
pub fn answer_on_sound(card: Card, call: Call, bytes: &[u8], buf: &mut [u8]) -> Answer
    ensures { Served buf.old (on_sound card (call_of bytes.now (length buf.old) call)) result buf.new }
{
    match call {
        Call::Command {
            verdict,
            bytes: part,
        } => { command(card, verdict, part_of(bytes, part), buf) }
        Call::Keyed(aid) => record_calls::keyed(card, part_of(bytes, aid)),
        Call::Stored { aid, n } => record_calls::stored(card, part_of(bytes, aid), n),
        Call::Finished { aid, policy, mark } => {
            record_calls::finished(card, part_of(bytes, aid), policy, mark)
        }
        Call::Tick => card.ticked(),
        Call::Lost => card.lost().answer(Status::Done, 0),
        Call::PolicyUpdate {
            speaker,
            bytes: part,
        } => { policy(card, part_of(bytes, speaker), part_of(bytes, part), buf) }
    }
}

// A call, whole: soundness is asked first.
pub fn answer(card: Card, call: Call, bytes: &[u8], buf: &mut [u8]) -> Answer
    ensures { Served buf.old (step card (call_of bytes.now (length buf.old) call)) result buf.new }
{
    if !card.is_sound() {
        return card.unsound();
    }
    answer_on_sound(card, call, bytes, buf)
}

// A fresh card.
pub fn fresh(inputs: &Inputs<'_>) -> Answer
    ensures { result ≡ as_answer (fresh_outcome inputs.now.eid.now inputs.now.aid.now inputs.now.capacity inputs.now.quota inputs.now.used inputs.now.volatile) }
{
    Card::fresh(inputs)
}
