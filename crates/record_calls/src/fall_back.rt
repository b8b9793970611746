// Document 01, 'Steps': "Set fall-back: .. Naming the holder changes nothing". It has no response.
// The card is known to be sound.
ghost use Rattle.std.specs.Prelude.{◌≡◌};
ghost use Rattle.card_record.specs.Answers.{as_answer, outcome_on_sound};
ghost use Rattle.rule_steps.specs.Asked.{Act.set_fall_back, Asked.on};
ghost use Rattle.rule_steps.specs.Steps.{asked_work};

use base_status::Status;
use card_record::{Answer, Card};

pub fn set_fall_back(card: Card, aid: &[u8]) -> Answer
    ensures { result ≡ as_answer (outcome_on_sound card (asked_work card (on aid.now set_fall_back))) }
{
    if !card.phase.is_quiet() {
        return card.refused(Status::StateWrong);
    }
    let Some(t) = card.place_of(aid) else {
        return card.refused(Status::NotHeld);
    };
    let p = card.profile(t);
    if !p.may_be_fall_back() {
        return card.refused(Status::StateWrong);
    }
    card.with_fallback(t).silently(Status::Done, 0)
}
