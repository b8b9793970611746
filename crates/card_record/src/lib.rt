// The card record, its phases, and what it hands out; its functions stand in the modules, which bear the names of the definitions' files.
// What writes takes the card by value, what asks takes it by reference; both answer for every record. That it is sound is asked once, by
// `is_sound`, in the calls above.
#![tactic(auto, unfolding(crate::proofs::Opened::cards))]

mod answers;
mod cards;
mod clock;
mod fresh;
mod notifications;
mod sound;
mod steps;
mod ticks;

use base_status::Status;
use card_isdp::{Aid, Isdp};
use card_places::PLACES;

// `left` and `number` stand in each case: `tick_in`, `shorter` and `PhaseClauses` of specs/ name the cases so.
#[derive(Clone, Copy)]
pub enum Phase {
    Quiet,
    Trial { previous: u8, left: u8, number: u16 },
    Back { left: u8, number: u16 },
    Fallen { left: u8, number: u16 },
}

// The record goes by value: its fields stand in an order that leaves no gaps (decision B35).
#[derive(Clone, Copy)]
pub struct Card {
    pub capacity: u32,
    pub volatile: u32,
    pub free: u32,
    pub places: [Isdp; Card::PLACES],
    pub phase: Phase,
    pub last: u16,
    pub fallback: u8,
    // the place of the first row of a listing not yet given, or `Card::NO_PLACE`; no Option, since `Clauses` of specs/ states the number,
    // and a script's `card` line hands in any byte
    pub kept: u8,
    pub eid: [u8; 16],
}

// With the number that document 01 gives each.
#[derive(Clone, Copy)]
pub enum Kind {
    Silent = 0,
    Changed = 2,
    RolledBack = 3,
    FallenBack = 5,
}

// A notification as values; kind Silent with zeros is the one value for 'no notification' (decision B12): no Option, since the laws and
// demand 1 of proof_demands say `o.notification ≡ silent`.
#[derive(Clone, Copy)]
pub struct Notification {
    pub kind: Kind,
    pub number: u16,
    pub eid: [u8; 16],
    pub aid: Aid,
}

// The card after a step, with what the step handed out: the notification, and the AID that a confirmation deleted (length 0: none).
// No Option: on a record that is not sound the place deleted may have an AID of length 0, so that there would be two values for none.
#[derive(Clone, Copy)]
pub struct Step {
    pub card: Card,
    pub notification: Notification,
    pub deleted: Aid,
}

// What every call answers; `length` counts the response bytes, which stand in the caller's buffer.
#[derive(Clone, Copy)]
pub struct Answer {
    pub status: Status,
    pub card: Card,
    pub length: usize,
    pub notification: Notification,
    pub ticks: u32,
}

// What a fresh card is made of: its EID and capacity, its one profile's AID, quota and used bytes, and its volatile memory.
// The contracts name the fields: `fresh_outcome` takes them one by one, as the theorems of specs/ do.
#[derive(Clone, Copy)]
pub struct Inputs<'a> {
    pub eid: &'a [u8],
    pub aid: &'a [u8],
    pub capacity: u32,
    pub quota: u32,
    pub used: u32,
    pub volatile: u32,
}

impl Card {
    pub const PLACES: usize = PLACES;

    // no place of a listing is kept; it is no place's number
    pub const NO_PLACE: u8 = 255;

    pub const WAIT: u8 = 10;

    pub const CAPACITY: u32 = 1048576;

    pub const LAST_NUMBER: u16 = 65535;
}
