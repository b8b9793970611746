// Document 01, 'Steps': the card after a tick, after a lost network, and with a change opened.
// Each answers for every record; whatever enables another place issues the next number and opens a phase (`switched`).
ghost use Rattle.std.specs.Prelude.{◌≡◌, true, false, cond};
ghost use Rattle.card_isdp.specs.Sizes.{wait};
ghost use Rattle.card_record.specs.declared.Phase.TheVariants.{Quiet, Back};
ghost use Rattle.card_record.specs.Cards.{on_fallback, with_phase};
ghost use Rattle.card_record.specs.Clock.{next_number, switched, opened, fallen, waits, shorter, tick_of, without_network, dropped, outstanding};

use crate::{Card, Phase};
use card_isdp::{Isdp, once_disabled};

// The number after `n`.
fn next_number(n: u16) -> u16
    ensures { result ≡ next_number n }
{
    n.wrapping_add(1)
}

impl Phase {
    // Is it still as it is after a tick, but for its ticks left?
    pub(crate) fn waits(self) -> bool
        ensures { result ≡ waits self }
    {
        match self {
            Phase::Quiet => true,
            Phase::Trial { left, .. } | Phase::Back { left, .. } | Phase::Fallen { left, .. } => {
                left > 1
            }
        }
    }

    // With a tick less.
    fn shorter(self) -> Phase
        requires { waits self ≡ true }
        ensures { result ≡ shorter self }
    {
        match self {
            Phase::Quiet => Phase::Quiet,
            Phase::Trial {
                previous,
                left,
                number,
            } => Phase::Trial {
                previous,
                left: left - 1,
                number,
            },
            Phase::Back { left, number } => Phase::Back {
                left: left - 1,
                number,
            },
            Phase::Fallen { left, number } => Phase::Fallen {
                left: left - 1,
                number,
            },
        }
    }

    // Is it the outstanding number?
    pub fn is_outstanding(self, n: u16) -> bool
        ensures { result ≡ outstanding self n }
    {
        match self {
            Phase::Quiet => false,
            Phase::Trial { number, .. }
            | Phase::Back { number, .. }
            | Phase::Fallen { number, .. } => n == number,
        }
    }
}

impl Card {
    // The place is enabled, the next number is issued, and the phase opens.
    fn switched(self, i: u8, phase: Phase) -> Card
        ensures { result ≡ switched self i phase }
    {
        Card {
            last: next_number(self.last),
            places: card_places::enable_at(self.places, i),
            ..self.with_phase(phase)
        }
    }

    // The change to the profile at a place is opened: Trial.
    pub fn opened(self, t: u8) -> Card
        ensures { result ≡ opened self t }
    {
        let phase = Phase::Trial {
            previous: self.enabled_place(),
            left: Card::WAIT,
            number: next_number(self.last),
        };
        self.switched(t, phase)
    }

    // Is the fall-back enabled?
    pub(crate) fn on_fallback(&self) -> bool
        ensures { result ≡ on_fallback self.now }
    {
        self.profile(self.fallback).life == Isdp::ENABLED
    }

    // The fall-back is enabled.
    fn fallen(self) -> Card
        ensures { result ≡ fallen self }
    {
        let phase = Phase::Fallen {
            left: Card::WAIT,
            number: next_number(self.last),
        };
        self.switched(self.fallback, phase)
    }

    // Trial has run out.
    fn trial_over(self, previous: u8) -> Card
        ensures { result ≡ switched self previous (Back wait (next_number self.last)) }
    {
        let phase = Phase::Back {
            left: Card::WAIT,
            number: next_number(self.last),
        };
        self.switched(previous, phase)
    }

    // Back has run out.
    fn back_over(self) -> Card
        ensures { result ≡ cond (on_fallback self) (with_phase self Quiet) (fallen self) }
    {
        if self.on_fallback() {
            return self.with_phase(Phase::Quiet);
        }
        self.fallen()
    }

    // The card after a tick that leaves its phase open.
    pub(crate) fn waited(self) -> Card
        requires { waits self.phase ≡ true }
        ensures { result ≡ tick_of self }
    {
        self.with_phase(self.phase.shorter())
    }

    // The card after a tick that its phase runs out with.
    pub(crate) fn run_out(self) -> Card
        requires { waits self.phase ≡ false }
        ensures { result ≡ tick_of self }
    {
        match self.phase {
            Phase::Trial { previous, .. } => self.trial_over(previous),
            Phase::Back { .. } => self.back_over(),
            Phase::Quiet | Phase::Fallen { .. } => self.with_phase(Phase::Quiet),
        }
    }

    // The card after the network was lost.
    pub(crate) fn without_network(self) -> Card
        ensures { result ≡ without_network self }
    {
        if !self.phase.is_quiet() || self.on_fallback() {
            return self.forgotten();
        }
        self.fallen()
    }

    // Does the confirmation delete the profile at a place?
    pub(crate) fn dropped(&self, i: u8) -> bool
        ensures { result ≡ dropped self.now i }
    {
        once_disabled(self.profile(i).policy) & (i != self.fallback)
    }
}
