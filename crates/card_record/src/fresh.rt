// Document 01, 'The card': the record of zeros and a fresh card.
// Inputs that break the sizes give the record of zeros, which is not sound.
ghost use Rattle.std.specs.Prelude.{◌≡◌, length};
ghost use Rattle.card_record.specs.Answers.{as_answer};
ghost use Rattle.card_record.specs.Fresh.{zero_card, fresh_ok, fresh_card, fresh_outcome};

use crate::{Answer, Card, Inputs, Phase};
use base_status::Status;
use card_isdp::{Aid, Isdp, aid_ok, pad};

impl Inputs<'_> {
    // Are they within the sizes?
    fn are_ok(&self) -> bool
        ensures { result ≡ fresh_ok self.now.eid.now self.now.aid.now self.now.capacity self.now.quota self.now.used }
    {
        (self.eid.len() == 16)
            & (aid_ok(self.aid)
                & ((1 <= self.capacity)
                    & ((self.capacity <= Card::CAPACITY)
                        & ((1 <= self.quota)
                            & ((self.quota <= self.capacity) & (self.used <= self.quota))))))
    }

    // A card with one profile.
    fn card(&self) -> Card
        requires { length self.now.eid.now ≡ 16 }
        ensures { result ≡ fresh_card self.now.eid.now self.now.aid.now self.now.capacity self.now.quota self.now.used self.now.volatile }
    {
        let mut places = [Isdp::none(); Card::PLACES];
        places[0] = Isdp::made(self.aid, Isdp::ENABLED, self.quota, self.used).with_mark(1);
        Card {
            eid: pad(self.eid),
            capacity: self.capacity,
            volatile: self.volatile,
            free: self.capacity.saturating_sub(self.quota),
            places,
            ..Card::zero()
        }
    }
}

impl Card {
    // A record of zeros in Quiet.
    pub fn zero() -> Card
        ensures { result ≡ zero_card }
    {
        let places = [Isdp::none(); Card::PLACES];
        Card::with([0; 16], 0, 0, 0, 0, 0, Phase::Quiet, Card::NO_PLACE, places)
    }

    pub fn fresh(inputs: &Inputs<'_>) -> Answer
        ensures { result ≡ as_answer (fresh_outcome inputs.now.eid.now inputs.now.aid.now inputs.now.capacity inputs.now.quota inputs.now.used inputs.now.volatile) }
    {
        let zero = Card::zero();
        if !inputs.are_ok() {
            return zero.refused(Status::DataWrong);
        }
        inputs
            .card()
            .step_since(zero.last, Aid::none())
            .answer(Status::Done, 0)
    }
}
