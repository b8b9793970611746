// Document 01, 'Responses': the commands that report, GET STATUS of all in parts, of one AID, and GET DATA. Of the card they change
// only where a listing goes on. The card is known to be sound; a buffer of any size is lent.
ghost use Rattle.std.specs.Prelude.{◌≡◌, cond};
ghost use Rattle.card_record.specs.Answers.{outcome_on_sound};
ghost use Rattle.rule_steps.specs.Asked.{Act.status, Asked.on, Asked.status_of_all, Asked.get_data};
ghost use Rattle.rule_steps.specs.Steps.{part_word, asked_work};
ghost use Rattle.record_calls.specs.Into.{AnsweredInto};

use base_bytes::Writer;
use base_status::Status;
use card_isdp::Tags;
use card_record::{Answer, Card};
use record_responses::{write_data, write_one_status, write_part};

// Where a listing begins: at the lowest place, or where it goes on.
fn begins_at(kept: u8, next: bool) -> u8
    ensures { result ≡ cond next kept 0 }
{
    if next {
        return kept;
    }
    0
}

// The word of a part of a listing: are rows left?
fn part_word(left: u8) -> Status
    ensures { result ≡ part_word left }
{
    if left == Card::NO_PLACE {
        return Status::Done;
    }
    Status::More
}

pub fn status_of_all(card: Card, next: bool, tags: Tags, buf: &mut [u8]) -> Answer
    ensures { AnsweredInto buf.old (outcome_on_sound card (asked_work card (status_of_all next tags.life tags.fall_back))) result buf.new }
{
    if next & (card.kept == Card::NO_PLACE) {
        return card.refused(Status::NotHeld);
    }
    let mut out = Writer::new(buf, 0);
    let left = write_part(&mut out, &card, begins_at(card.kept, next), tags);
    card.keeping(left).silently(part_word(left), out.at)
}

pub fn status_of_one(card: Card, aid: &[u8], tags: Tags, buf: &mut [u8]) -> Answer
    ensures { AnsweredInto buf.old (outcome_on_sound card (asked_work card (on aid.now (status tags.life tags.fall_back)))) result buf.new }
{
    let Some(t) = card.place_of(aid) else {
        return card.refused(Status::NotHeld);
    };
    let mut out = Writer::new(buf, 0);
    write_one_status(&mut out, &card, t, tags);
    card.forgotten().silently(Status::Done, out.at)
}

pub fn get_data(card: Card, buf: &mut [u8]) -> Answer
    ensures { AnsweredInto buf.old (outcome_on_sound card (asked_work card get_data)) result buf.new }
{
    let mut out = Writer::new(buf, 0);
    write_data(&mut out, &card);
    card.forgotten().silently(Status::Done, out.at)
}
