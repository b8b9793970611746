// Document 01, 'Steps': tick, lost and confirmation with what they hand out.
// Every step of the product is made by `step_since`.
ghost use Rattle.std.specs.Prelude.{◌≡◌};
ghost use Rattle.card_record.specs.Clock.{trial_closed};
ghost use Rattle.card_record.specs.Steps.{step_since, step_to, tick_step, lost_step, trial_gone, confirm_step};

use crate::{Card, Phase, Step};
use card_isdp::Aid;

impl Card {
    // Every step is made here: this card comes after one whose last number was `last`. It takes that number and not the old card, so
    // that no card is copied for it.
    pub fn step_since(self, last: u16, deleted: Aid) -> Step
        ensures { result ≡ step_since last self deleted }
    {
        Step {
            notification: self.notice_since(last),
            card: self,
            deleted,
        }
    }

    pub fn tick(self) -> Step
        ensures { result ≡ tick_step self }
    {
        if self.phase.waits() {
            return self.waited().step_since(self.last, Aid::none());
        }
        self.run_out().step_since(self.last, Aid::none())
    }

    pub fn lost(self) -> Step
        ensures { result ≡ lost_step self }
    {
        self.without_network().step_since(self.last, Aid::none())
    }

    // Trial is closed by its confirmation, and the previous profile may go with it.
    fn trial_confirmed(self, previous: u8) -> Step
        ensures { result ≡ step_to self (trial_closed self previous) (trial_gone self previous) }
    {
        let quiet = self.with_phase(Phase::Quiet);
        if self.dropped(previous) {
            let deleted = self.profile(previous).aid;
            return quiet.cleared(previous).step_since(self.last, deleted);
        }
        quiet.step_since(self.last, Aid::none())
    }

    // The change is closed by its confirmation.
    pub fn confirmed(self) -> Step
        ensures { result ≡ confirm_step self }
    {
        if let Phase::Trial { previous, .. } = self.phase {
            return self.trial_confirmed(previous);
        }
        self.with_phase(Phase::Quiet)
            .step_since(self.last, Aid::none())
    }
}
