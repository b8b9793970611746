// Document 01, 'Steps': confirmation, of the outstanding number only. What it does is the card's `confirmed`; its response is the AID that
// this deleted, where there is one. The card is known to be sound; a buffer of any size is lent.
ghost use Rattle.card_record.specs.Answers.{outcome_on_sound};
ghost use Rattle.rule_steps.specs.Asked.{Asked.confirm};
ghost use Rattle.rule_steps.specs.Steps.{asked_work};
ghost use Rattle.record_calls.specs.Into.{AnsweredInto};

use base_bytes::Writer;
use base_status::Status;
use card_record::{Answer, Card};
use record_responses::write_deleted;

pub fn confirm(card: Card, number: u16, buf: &mut [u8]) -> Answer
    ensures { AnsweredInto buf.old (outcome_on_sound card (asked_work card (confirm number))) result buf.new }
{
    if card.phase.is_quiet() {
        return card.refused(Status::StateWrong);
    }
    if !card.phase.is_outstanding(number) {
        return card.refused(Status::NotHeld);
    }
    let step = card.confirmed();
    let mut out = Writer::new(buf, 0);
    write_deleted(&mut out, &step.deleted);
    step.answer(Status::Done, out.at)
}
