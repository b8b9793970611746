// The words of a `card` line that are parted by `:`, the phase and the places.
ghost use Rattle.std.specs.Prelude.{◌≡◌, ◌≤◌, IfSome};
ghost use Rattle.script_record.specs.Colons.{number_field, open_fields, trial_fields, phase_word, sizes_fields, place_with, place_word};

use base_bytes::same;
use card_isdp::{Aid, Isdp};
use card_record::Phase;
use script_words::{MOST_NUMBER, Read};
use text_words::{Span, decimal, hex_byte, next_field, read_hex};

// The number of a field, and the place of the field after it.
// A place goes in and the next comes out, as in the definitions: `on_field` hands it on.
#[tactic(auto, unfolding(crate::specs::Colons::number_field))]
fn next_number(w: &[u8], at: usize, most: u32) -> Option<Read<u32>>
    ensures value { result ≡ number_field most w.now at }
    ensures within { IfSome result (λ f. f.value ≤ most) }
{
    let Span { from, to } = next_field(w, at, b':')?;
    let value = decimal(&w[from..to], most)?;
    Some(Read {
        value,
        next: to + 1,
    })
}

// What an open change has left, and its number.
#[derive(Clone, Copy)]
pub struct Open {
    pub left: u8,
    pub number: u16,
}

// LEFT:NUMBER, and nothing after it.
#[tactic(auto, unfolding(crate::specs::Colons::open_fields, base_choice::specs::Choice::pick, base_choice::specs::Choice::at_most))]
fn open_at(w: &[u8], at: usize) -> Option<Open>
    ensures { result ≡ open_fields w.now at }
{
    let left = next_number(w, at, 255)?;
    let number = next_number(w, left.next, 65535)?;
    if number.next <= w.len() {
        return None;
    }
    Some(Open {
        left: left.value as u8,
        number: number.value as u16,
    })
}

// PREVIOUS:LEFT:NUMBER.
#[tactic(auto, unfolding(crate::specs::Colons::trial_fields))]
fn trial_at(w: &[u8], at: usize) -> Option<Phase>
    ensures { result ≡ trial_fields w.now at }
{
    let previous = next_number(w, at, 255)?;
    let Open { left, number } = open_at(w, previous.next)?;
    Some(Phase::Trial {
        previous: previous.value as u8,
        left,
        number,
    })
}

// Word after word, as `verb_of` of script_line.
#[tactic(auto, unfolding(crate::specs::Colons::phase_word, base_choice::specs::Choice::pick))]
pub fn read_phase(w: &[u8]) -> Option<Phase>
    ensures { result ≡ phase_word w.now }
{
    if same(w, b"Q") {
        return Some(Phase::Quiet);
    }
    let Span { from, to } = next_field(w, 0, b':')?;
    if same(&w[from..to], b"T") {
        return trial_at(w, to + 1);
    }
    let Open { left, number } = open_at(w, to + 1)?;
    if same(&w[from..to], b"B") {
        return Some(Phase::Back { left, number });
    }
    if same(&w[from..to], b"F") {
        return Some(Phase::Fallen { left, number });
    }
    None
}

// The figures of a place; `policy` and `mark` are bytes, as the record has them.
#[derive(Clone, Copy)]
pub struct Sizes {
    pub quota: u32,
    pub used: u32,
    pub policy: u8,
    pub mark: u8,
}

// QUOTA:USED:POLICY:MARK, and nothing after it.
#[tactic(auto, unfolding(crate::specs::Colons::sizes_fields, base_choice::specs::Choice::pick, base_choice::specs::Choice::at_most))]
fn sizes_at(w: &[u8], at: usize) -> Option<Sizes>
    ensures { result ≡ sizes_fields w.now at }
{
    let quota = next_number(w, at, MOST_NUMBER)?;
    let used = next_number(w, quota.next, MOST_NUMBER)?;
    let policy = next_number(w, used.next, 255)?;
    let mark = next_number(w, policy.next, 255)?;
    if mark.next <= w.len() {
        return None;
    }
    Some(Sizes {
        quota: quota.value,
        used: used.value,
        policy: policy.value as u8,
        mark: mark.value as u8,
    })
}

// STATE:QUOTA:USED:POLICY:MARK, after the AID.
#[tactic(auto, unfolding(crate::specs::Colons::place_with))]
fn place_with(w: &[u8], at: usize, aid: Aid) -> Option<Isdp>
    ensures { result ≡ place_with w.now at aid }
{
    let Span { from, to } = next_field(w, at, b':')?;
    let life = hex_byte(&w[from..to])?;
    let Sizes {
        quota,
        used,
        policy,
        mark,
    } = sizes_at(w, to + 1)?;
    Some(Isdp {
        quota,
        used,
        life,
        policy,
        mark,
        aid,
    })
}

#[tactic(auto, unfolding(crate::specs::Colons::place_word, base_choice::specs::Choice::pick))]
pub fn read_place(w: &[u8]) -> Option<Isdp>
    ensures { result ≡ place_word w.now }
{
    if same(w, b"-") {
        return Some(Isdp::none());
    }
    let Span { from, to } = next_field(w, 0, b':')?;
    let mut bytes = [0u8; 16];
    let n = read_hex(&w[from..to], &mut bytes).ok()?;
    place_with(
        w,
        to + 1,
        Aid {
            bytes,
            len: n as u8,
        },
    )
}
