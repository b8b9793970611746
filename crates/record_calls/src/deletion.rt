// Document 01, 'Steps': delete and master delete, the same without policy and with the token verdict. The response of both is 00.
// The card is known to be sound; a buffer of any size is lent.
ghost use Rattle.card_record.specs.Answers.{outcome_on_sound};
ghost use Rattle.rule_steps.specs.Asked.{Act.delete, Act.master_delete, Asked.on};
ghost use Rattle.rule_steps.specs.Steps.{asked_work};
ghost use Rattle.record_calls.specs.Into.{AnsweredInto};

use base_bytes::Writer;
use base_status::Status;
use card_isdp::forbids_deletion;
use card_record::{Answer, Card};

pub fn delete(card: Card, aid: &[u8], buf: &mut [u8]) -> Answer
    ensures { AnsweredInto buf.old (outcome_on_sound card (asked_work card (on aid.now delete))) result buf.new }
{
    if !card.phase.is_quiet() {
        return card.refused(Status::StateWrong);
    }
    let Some(t) = card.place_of(aid) else {
        return card.refused(Status::NotHeld);
    };
    if !card.may_be_deleted(t) {
        return card.refused(Status::StateWrong);
    }
    let p = card.profile(t);
    if forbids_deletion(p.policy) {
        return card.refused(Status::PolicyForbids);
    }
    let mut out = Writer::new(buf, 0);
    out.byte(0x00);
    card.cleared(t).silently(Status::Done, out.at)
}

pub fn master_delete(card: Card, aid: &[u8], verdict: u8, buf: &mut [u8]) -> Answer
    ensures { AnsweredInto buf.old (outcome_on_sound card (asked_work card (on aid.now (master_delete verdict)))) result buf.new }
{
    if !card.phase.is_quiet() {
        return card.refused(Status::StateWrong);
    }
    let Some(t) = card.place_of(aid) else {
        return card.refused(Status::NotHeld);
    };
    if !card.may_be_master_deleted(t) {
        return card.refused(Status::StateWrong);
    }
    if verdict != 1 {
        return card.refused(Status::VerdictWrong);
    }
    let mut out = Writer::new(buf, 0);
    out.byte(0x00);
    card.cleared(t).silently(Status::Done, out.at)
}
