// Document 01, 'Steps': enable and disable, which open a change, so that a number is issued; neither has a response.
// The card is known to be sound.
ghost use Rattle.std.specs.Prelude.{◌≡◌};
ghost use Rattle.card_record.specs.Answers.{as_answer, outcome_on_sound};
ghost use Rattle.rule_steps.specs.Asked.{Act.enable, Act.disable, Asked.on};
ghost use Rattle.rule_steps.specs.Steps.{asked_work};

use base_status::Status;
use card_isdp::{Aid, Isdp, forbids_disabling};
use card_record::{Answer, Card};

pub fn enable(card: Card, aid: &[u8]) -> Answer
    ensures { result ≡ as_answer (outcome_on_sound card (asked_work card (on aid.now enable))) }
{
    if !card.phase.is_quiet() {
        return card.refused(Status::StateWrong);
    }
    let Some(t) = card.place_of(aid) else {
        return card.refused(Status::NotHeld);
    };
    let p = card.profile(t);
    if p.life != Isdp::DISABLED {
        return card.refused(Status::StateWrong);
    }
    let e = card.profile(card.enabled_place());
    if forbids_disabling(e.policy) {
        return card.refused(Status::PolicyForbids);
    }
    card.opened(t)
        .step_since(card.last, Aid::none())
        .answer(Status::Done, 0)
}

pub fn disable(card: Card, aid: &[u8]) -> Answer
    ensures { result ≡ as_answer (outcome_on_sound card (asked_work card (on aid.now disable))) }
{
    if !card.phase.is_quiet() {
        return card.refused(Status::StateWrong);
    }
    let Some(t) = card.place_of(aid) else {
        return card.refused(Status::NotHeld);
    };
    let p = card.profile(t);
    let may = (p.life == Isdp::ENABLED) & (t != card.fallback);
    if !may {
        return card.refused(Status::StateWrong);
    }
    if forbids_disabling(p.policy) {
        return card.refused(Status::PolicyForbids);
    }
    card.opened(card.fallback)
        .step_since(card.last, Aid::none())
        .answer(Status::Done, 0)
}
