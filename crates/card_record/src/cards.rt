// Document 01, 'The card': what is asked of a card, the whole record spelled once, and its writes by name.
// A place's number past the last place reads as a place that is not held, and nothing is written there.
ghost use Rattle.std.specs.Prelude.{◌≡◌, set};
ghost use Rattle.card_record.specs.Cards.{is_quiet, place_of, enabled_place, free_place, may_be_deleted, may_be_master_deleted, card_with, keeping, forgotten, with_phase, with_places, given_back, filled, cleared, rewritten, with_fallback};
ghost use Rattle.card_places.specs.Places.{at, found_of};

use crate::{Card, Phase};
use card_isdp::Isdp;

// Free with a quota given back; the capacity where it would be more, as on no sound card (decision B67).
fn given_back(capacity: u32, free: u32, quota: u32) -> u32
    ensures { result ≡ given_back capacity free quota }
{
    free.saturating_add(quota).min(capacity)
}

impl Phase {
    // Is no change open?
    pub fn is_quiet(self) -> bool
        ensures { result ≡ is_quiet self }
    {
        matches!(self, Phase::Quiet)
    }
}

impl Card {
    // The place that bears an AID.
    pub fn place_of(&self, aid: &[u8]) -> Option<u8>
        ensures { result ≡ found_of (place_of self.now aid.now) }
    {
        card_places::find(&self.places, aid)
    }

    // The enabled place.
    pub fn enabled(&self) -> Option<u8>
        ensures { result ≡ found_of (enabled_place self.now) }
    {
        card_places::enabled(&self.places)
    }

    // The number of the enabled place, of places if there is none, as its definition has it; `enabled` has the Option.
    pub fn enabled_place(&self) -> u8
        ensures { result ≡ enabled_place self.now }
    {
        self.enabled().unwrap_or(Card::PLACES as u8)
    }

    // The lowest free place.
    pub fn free_place(&self) -> Option<u8>
        ensures { result ≡ found_of (free_place self.now) }
    {
        card_places::free_place(&self.places)
    }

    // The profile at a place; one that is not held past the last.
    pub fn profile(&self, i: u8) -> Isdp
        ensures { result ≡ at self.now.places i }
    {
        card_places::at(&self.places, i)
    }

    // May the profile at a place be deleted, its policy apart?
    pub fn may_be_deleted(&self, i: u8) -> bool
        ensures { result ≡ may_be_deleted self.now i }
    {
        let life = self.profile(i).life;
        let created = (life == Isdp::SELECTABLE) | (life == Isdp::PERSONALIZED);
        (created | (life == Isdp::DISABLED)) & (i != self.fallback)
    }

    // May it be deleted by master delete, the token apart?
    pub fn may_be_master_deleted(&self, i: u8) -> bool
        ensures { result ≡ may_be_master_deleted self.now i }
    {
        (self.profile(i).life == Isdp::DISABLED) & (i != self.fallback)
    }

    // The whole record, spelled once, so that a new field has one place (docs/CHANGING.md); the parameters are those of `card_with`.
    pub fn with(
        eid: [u8; 16],
        capacity: u32,
        volatile: u32,
        free: u32,
        last: u16,
        fallback: u8,
        phase: Phase,
        kept: u8,
        places: [Isdp; Card::PLACES],
    ) -> Card
        ensures { result ≡ card_with eid capacity volatile free last fallback phase kept places }
    {
        Card {
            capacity,
            volatile,
            free,
            places,
            phase,
            last,
            fallback,
            kept,
            eid,
        }
    }

    // A part of a listing was given: the card keeps the place of the first row that was not.
    pub fn keeping(self, place: u8) -> Card
        ensures { result ≡ keeping self place }
    {
        Card {
            kept: place,
            ..self
        }
    }

    // What changes nothing else forgets the kept place.
    pub fn forgotten(self) -> Card
        ensures { result ≡ forgotten self }
    {
        self.keeping(Card::NO_PLACE)
    }

    pub(crate) fn with_phase(self, phase: Phase) -> Card
        ensures { result ≡ with_phase self phase }
    {
        Card {
            phase,
            kept: Card::NO_PLACE,
            ..self
        }
    }

    fn with_place(self, i: u8, p: Isdp) -> Card
        ensures { result ≡ with_places self (set self.places i p) }
    {
        Card {
            places: card_places::put(self.places, i, p),
            kept: Card::NO_PLACE,
            ..self
        }
    }

    // A free place filled with a new profile, whose quota is taken from free; 0 where it is more, as on no sound card (decision B67).
    pub fn filled(self, i: u8, p: Isdp) -> Card
        ensures { result ≡ filled self i p }
    {
        Card {
            free: self.free.saturating_sub(p.quota),
            ..self.with_place(i, p)
        }
    }

    // A place cleared and its quota given back: the deletion.
    pub fn cleared(self, i: u8) -> Card
        ensures { result ≡ cleared self i }
    {
        Card {
            free: given_back(self.capacity, self.free, self.profile(i).quota),
            ..self.with_place(i, Isdp::none())
        }
    }

    // A profile rewritten where it stands, with its AID and its quota.
    pub fn rewritten(self, i: u8, p: Isdp) -> Card
        ensures { result ≡ rewritten self i p }
    {
        self.with_place(i, p)
    }

    pub fn with_fallback(self, i: u8) -> Card
        ensures { result ≡ with_fallback self i }
    {
        Card {
            fallback: i,
            kept: Card::NO_PLACE,
            ..self
        }
    }
}
