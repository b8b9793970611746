// Document 01, 'The card': is a card sound?
// Four groups of clauses, as in the definition; a new clause goes into one of them.
ghost use Rattle.std.specs.Prelude.{◌≡◌};
ghost use Rattle.card_record.specs.Sound.{sizes_ok, places_ok, kept_ok, roles_ok, open_ok, phase_ok, sound};

use crate::{Card, Phase};
use card_isdp::Isdp;

fn open_ok(left: u8, number: u16, last: u16) -> bool
    ensures { result ≡ open_ok left number last }
{
    (1 <= left) & ((left <= Card::WAIT) & (number == last))
}

impl Card {
    // The other sizes hold of every record by its types, and so does that of the last number.
    fn sizes_ok(&self) -> bool
        ensures { result ≡ sizes_ok self.now }
    {
        (self.last <= Card::LAST_NUMBER)
            & ((1 <= self.capacity) & (self.capacity <= Card::CAPACITY))
    }

    fn places_ok(&self) -> bool
        ensures { result ≡ places_ok self.now }
    {
        card_places::all_ok(&self.places, self.capacity)
            & (card_places::all_distinct(&self.places)
                & card_places::leave(&self.places, self.capacity, self.free))
    }

    // Is no place kept, or a held one?
    fn kept_ok(&self) -> bool
        ensures { result ≡ kept_ok self.now }
    {
        (self.kept == Card::NO_PLACE) | (self.profile(self.kept).aid.len != 0)
    }

    fn roles_ok(&self) -> bool
        ensures { result ≡ roles_ok self.now }
    {
        let p = self.profile(self.fallback);
        (card_places::count_enabled(&self.places) == 1) & (p.may_be_fall_back() & self.kept_ok())
    }

    fn phase_ok(&self) -> bool
        ensures { result ≡ phase_ok self.now }
    {
        match self.phase {
            Phase::Quiet => true,
            Phase::Trial {
                previous,
                left,
                number,
            } => {
                open_ok(left, number, self.last) & (self.profile(previous).life == Isdp::DISABLED)
            }
            Phase::Back { left, number } => open_ok(left, number, self.last),
            Phase::Fallen { left, number } => {
                open_ok(left, number, self.last) & self.on_fallback()
            }
        }
    }

    pub fn is_sound(&self) -> bool
        ensures { result ≡ sound self.now }
    {
        self.sizes_ok() & (self.places_ok() & (self.roles_ok() & self.phase_ok()))
    }
}
