// Document 01, 'The card': notifications, handed out as values.
// One is made from the card after a step, where its last number is a new one.
ghost use Rattle.std.specs.Prelude.{◌≡◌};
ghost use Rattle.card_record.specs.Notifications.{silent, code_of, notice_kind, notice_since};

use crate::{Card, Kind, Notification, Phase};
use card_isdp::Aid;

impl Kind {
    pub fn code(self) -> u8
        ensures { result ≡ code_of self }
    {
        self as u8
    }
}

impl Notification {
    // No notification.
    pub fn silent() -> Notification
        ensures { result ≡ silent }
    {
        Notification {
            kind: Kind::Silent,
            number: 0,
            eid: [0; 16],
            aid: Aid::none(),
        }
    }
}

impl Phase {
    // The kind of the notification that goes with a number issued.
    fn notice_kind(self) -> Kind
        ensures { result ≡ notice_kind self }
    {
        match self {
            Phase::Quiet => Kind::Silent,
            Phase::Trial { .. } => Kind::Changed,
            Phase::Back { .. } => Kind::RolledBack,
            Phase::Fallen { .. } => Kind::FallenBack,
        }
    }
}

impl Card {
    // The notification that a card hands out after one whose last number was `last`: none where no number was issued.
    pub(crate) fn notice_since(&self, last: u16) -> Notification
        ensures { result ≡ notice_since last self.now }
    {
        if self.last == last {
            return Notification::silent();
        }
        Notification {
            kind: self.phase.notice_kind(),
            number: self.last,
            eid: self.eid,
            aid: self.profile(self.enabled_place()).aid,
        }
    }
}
