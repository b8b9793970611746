// Document 01, 'Steps': "Create: the lowest free place, SELECTABLE, used 0, empty policy." Its response is 00.
// The card is known to be sound, and the AID and the quota were read; a buffer of any size is lent.
ghost use Rattle.card_record.specs.Answers.{outcome_on_sound};
ghost use Rattle.rule_steps.specs.Asked.{Asked.create};
ghost use Rattle.rule_steps.specs.Steps.{asked_work};
ghost use Rattle.record_calls.specs.Into.{AnsweredInto};

use base_bytes::Writer;
use base_status::Status;
use card_isdp::Isdp;
use card_record::{Answer, Card};

pub fn create(card: Card, aid: &[u8], quota: u32, buf: &mut [u8]) -> Answer
    ensures { AnsweredInto buf.old (outcome_on_sound card (asked_work card (create aid.now quota))) result buf.new }
{
    if !card.phase.is_quiet() {
        return card.refused(Status::StateWrong);
    }
    let None = card.place_of(aid) else {
        return card.refused(Status::DataWrong);
    };
    let Some(t) = card.free_place() else {
        return card.refused(Status::NoRoom);
    };
    if quota > card.free {
        return card.refused(Status::NoRoom);
    }
    let mut out = Writer::new(buf, 0);
    out.byte(0x00);
    card.filled(t, Isdp::made(aid, Isdp::SELECTABLE, quota, 0))
        .silently(Status::Done, out.at)
}
