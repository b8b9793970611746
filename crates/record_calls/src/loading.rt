// Document 01, 'Steps': keyed, stored and finished, the inner calls of the download part, allowed while a change is open. None has a
// response. The card is known to be sound; the AID and the values are handed in, and so asked here.
ghost use Rattle.std.specs.Prelude.{◌≡◌};
ghost use Rattle.card_record.specs.Answers.{as_answer, outcome_on_sound};
ghost use Rattle.rule_steps.specs.Asked.{Act.keyed, Act.stored, Act.finished};
ghost use Rattle.rule_steps.specs.Steps.{inner_work};

use base_status::Status;
use card_isdp::{Isdp, aid_ok, mark_ok, policy_ok};
use card_record::{Answer, Card};

// SELECTABLE to PERSONALIZED.
pub fn keyed(card: Card, aid: &[u8]) -> Answer
    ensures { result ≡ as_answer (outcome_on_sound card (inner_work card aid.now keyed)) }
{
    if !aid_ok(aid) {
        return card.refused(Status::DataWrong);
    }
    let Some(t) = card.place_of(aid) else {
        return card.refused(Status::NotHeld);
    };
    let p = card.profile(t);
    if p.life != Isdp::SELECTABLE {
        return card.refused(Status::StateWrong);
    }
    card.rewritten(t, p.with_life(Isdp::PERSONALIZED))
        .silently(Status::Done, 0)
}

// n bytes more in a PERSONALIZED profile.
pub fn stored(card: Card, aid: &[u8], n: u32) -> Answer
    ensures { result ≡ as_answer (outcome_on_sound card (inner_work card aid.now (stored n))) }
{
    if !aid_ok(aid) {
        return card.refused(Status::DataWrong);
    }
    let Some(t) = card.place_of(aid) else {
        return card.refused(Status::NotHeld);
    };
    let p = card.profile(t);
    if p.life != Isdp::PERSONALIZED {
        return card.refused(Status::StateWrong);
    }
    if !p.has_room(n) {
        return card.refused(Status::NoRoom);
    }
    let used = p.used + n;
    card.rewritten(t, p.with_used(used))
        .silently(Status::Done, 0)
}

// PERSONALIZED to DISABLED, with its policy and its mark.
pub fn finished(card: Card, aid: &[u8], policy: u8, mark: u8) -> Answer
    ensures { result ≡ as_answer (outcome_on_sound card (inner_work card aid.now (finished policy mark))) }
{
    if !(aid_ok(aid) & (policy_ok(policy) & mark_ok(mark))) {
        return card.refused(Status::DataWrong);
    }
    let Some(t) = card.place_of(aid) else {
        return card.refused(Status::NotHeld);
    };
    let p = card.profile(t);
    let done = (p.life == Isdp::PERSONALIZED) & (0 < p.used);
    if !done {
        return card.refused(Status::StateWrong);
    }
    card.rewritten(t, p.finish(policy, mark))
        .silently(Status::Done, 0)
}
