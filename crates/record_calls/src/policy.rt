// Request 2026-06: the policy update of an operator's domain, once it is read. It has no response.
// The card is known to be sound; the speaker's AID is handed in, and so asked here.
ghost use Rattle.std.specs.Prelude.{◌≡◌};
ghost use Rattle.card_record.specs.Answers.{as_answer, outcome_on_sound};
ghost use Rattle.rule_steps.specs.Asked.{Act.set_policy};
ghost use Rattle.rule_steps.specs.Steps.{inner_work};

use base_status::Status;
use card_isdp::{Isdp, aid_ok, policy_ok};
use card_record::{Answer, Card};

// The policy of the enabled profile, set by its operator's domain; the old one is not asked.
pub fn set_policy(card: Card, speaker: &[u8], policy: u8) -> Answer
    ensures { result ≡ as_answer (outcome_on_sound card (inner_work card speaker.now (set_policy policy))) }
{
    if !(aid_ok(speaker) & policy_ok(policy)) {
        return card.refused(Status::DataWrong);
    }
    if !card.phase.is_quiet() {
        return card.refused(Status::StateWrong);
    }
    let Some(t) = card.place_of(speaker) else {
        return card.refused(Status::NotHeld);
    };
    let p = card.profile(t);
    if p.life != Isdp::ENABLED {
        return card.refused(Status::StateWrong);
    }
    card.rewritten(t, p.with_policy(policy))
        .silently(Status::Done, 0)
}
