// Document 01, 'Status words': what every call answers, refused or accepted.
// The ticks are figured by the phase, so all but the refusal 6F 00 are for a card known to be sound.
ghost use Rattle.std.specs.Prelude.{◌≡◌, length};
ghost use Rattle.card_record.specs.Ticks.{ticks_by_phase};
ghost use Rattle.card_record.specs.Answers.{as_answer, refused_with, answer_with, silent_with};
ghost use Rattle.card_record.specs.Steps.{tick_step};
ghost use Rattle.base_status.specs.declared.Status.TheVariants.{Unsound, Done};

use crate::{Answer, Card, Notification, Step};
use base_status::Status;

impl Card {
    // An answer without a notification, of a card known to be sound, and no step between (decision B79).
    pub fn silently(self, word: Status, length: usize) -> Answer
        ensures { result ≡ silent_with (ticks_by_phase self) word self length }
    {
        Answer {
            status: word,
            card: self,
            length,
            notification: Notification::silent(),
            ticks: self.ticks_by_phase(),
        }
    }

    // A refusal of a card known to be sound: the card as it was, and its ticks.
    pub fn refused(self, status: Status) -> Answer
        ensures { result ≡ as_answer (refused_with (ticks_by_phase self) self status) }
    {
        self.silently(status, 0)
    }

    // The answer of a tick. Most leave their phase open and issue no number: these have a way of their own (decision B79).
    pub fn ticked(self) -> Answer
        ensures { result ≡ answer_with (ticks_by_phase (tick_step self).card) Done (tick_step self) 0 }
    {
        if self.phase.waits() {
            return self.waited().silently(Status::Done, 0);
        }
        // copied where the phase runs out, and not where the tick comes in (decision B42)
        let late = self;
        late.tick().answer(Status::Done, 0)
    }

    // The refusal of a card that is not sound.
    pub fn unsound(self) -> Answer
        ensures { result ≡ as_answer (refused_with 0 self Unsound) }
    {
        Answer {
            status: Status::Unsound,
            card: self,
            length: 0,
            notification: Notification::silent(),
            ticks: 0,
        }
    }
}

impl Step {
    // The answer of an accepted call with its word of success and so many response bytes.
    pub fn answer(self, word: Status, length: usize) -> Answer
        ensures { result ≡ answer_with (ticks_by_phase self.card) word self length }
    {
        Answer {
            status: word,
            card: self.card,
            length,
            notification: self.notification,
            ticks: self.card.ticks_by_phase(),
        }
    }
}
