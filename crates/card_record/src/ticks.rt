// Document 01, 'Steps': the ticks still to come, figured by the phase.
// That this is the count of the tick rule's steps is proved of every sound card.
ghost use Rattle.std.specs.Prelude.{◌≡◌};
ghost use Rattle.card_record.specs.Ticks.{ticks_by_phase};

use crate::{Card, Phase};

impl Card {
    // The ticks still to come, by the phase; the definitions count them step by step.
    pub fn ticks_by_phase(&self) -> u32
        ensures { result ≡ ticks_by_phase self.now }
    {
        match self.phase {
            Phase::Quiet => 0,
            Phase::Trial { previous, left, .. } => {
                if previous == self.fallback {
                    return left as u32 + Card::WAIT as u32;
                }
                left as u32 + Card::WAIT as u32 + Card::WAIT as u32
            }
            Phase::Back { left, .. } => {
                if self.on_fallback() {
                    return left as u32;
                }
                left as u32 + Card::WAIT as u32
            }
            Phase::Fallen { left, .. } => left as u32,
        }
    }
}
