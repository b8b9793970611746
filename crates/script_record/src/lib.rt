// The record that a `card` line hands in, sound or not (docs/SCRIPT.md, 'The lines').
// Every function answers for every line: the first word that is wrong gives the reason.
#![tactic(auto)]

mod colons;

ghost use Rattle.std.specs.Prelude.{◌≡◌, ◌≤◌, [], IfSome, IfOk};
ghost use Rattle.card_isdp.specs.Sizes.{most_places};
ghost use Rattle.card_record.specs.Cards.{no_place};
ghost use Rattle.script_words.specs.Words.{read_to, moved};
ghost use Rattle.script_record.specs.Records.{phase_at, kept_in, kept_at, pending_at, record_memory_at, record_head_at, place_at, places_on, record_with, record_at};

use base_bytes::same;
use card_isdp::Isdp;
use card_record::{Card, Phase};
use colons::{read_phase, read_place};
use script_words::{MOST_NUMBER, Reason, Words};
use text_words::{Span, decimal, read_hex};

// `next_phase`, `next_kept` and `next_place` are alike but for reader and reason: over a closure the contract would have
// to say what the closure reads.
#[tactic(auto, unfolding(crate::specs::Records::phase_at, script_words::specs::Words::word_next))]
fn next_phase(words: &mut Words<'_>) -> Result<Phase, Reason>
    ensures found { read_to result words.new.at ≡ phase_at words.old.line.now words.old.at }
    ensures moved { words.new ≡ moved words.old }
{
    let Span { from, to } = words.next()?;
    read_phase(&words.line[from..to]).ok_or(Reason::BadPhase)
}

// KEPT: no number spells `Card::NO_PLACE`.
#[tactic(auto, unfolding(crate::specs::Records::kept_in, base_choice::specs::Choice::pick))]
fn kept_in(w: &[u8]) -> Option<u32>
    ensures value { result ≡ kept_in w.now }
    ensures within { IfSome result (λ n. n ≤ no_place) }
{
    if same(w, b"-") {
        return Some(Card::NO_PLACE as u32);
    }
    decimal(w, 254)
}

#[tactic(auto, unfolding(crate::specs::Records::kept_at, script_words::specs::Words::word_next))]
fn next_kept(words: &mut Words<'_>) -> Result<u32, Reason>
    ensures found { read_to result words.new.at ≡ kept_at words.old.line.now words.old.at }
    ensures moved { words.new ≡ moved words.old }
    ensures within { IfOk result (λ n. n ≤ no_place) }
{
    let Span { from, to } = words.next()?;
    kept_in(&words.line[from..to]).ok_or(Reason::BadNumber)
}

// The change and the listing that are open; `kept` is a byte, as the record has it.
#[derive(Clone, Copy)]
pub struct Pending {
    pub phase: Phase,
    pub kept: u8,
}

#[tactic(auto, unfolding(crate::specs::Records::pending_at))]
fn next_pending(words: &mut Words<'_>) -> Result<Pending, Reason>
    ensures found { read_to result words.new.at ≡ pending_at words.old.line.now words.old.at }
    ensures line { words.new.line ≡ words.old.line }
{
    let phase = next_phase(words)?;
    let kept = next_kept(words)?;
    Ok(Pending {
        phase,
        kept: kept as u8,
    })
}

// The figures of the card's memory, which stand after the EID.
#[derive(Clone, Copy)]
pub struct Memory {
    pub capacity: u32,
    pub volatile: u32,
    pub free: u32,
}

#[tactic(auto, unfolding(crate::specs::Records::record_memory_at))]
fn next_memory(words: &mut Words<'_>) -> Result<Memory, Reason>
    ensures found { read_to result words.new.at ≡ record_memory_at words.old.line.now words.old.at }
    ensures line { words.new.line ≡ words.old.line }
{
    let capacity = words.value(MOST_NUMBER)?;
    let volatile = words.value(MOST_NUMBER)?;
    let free = words.value(MOST_NUMBER)?;
    Ok(Memory {
        capacity,
        volatile,
        free,
    })
}

// What stands between the EID and the places.
#[derive(Clone, Copy)]
pub struct Head {
    pub memory: Memory,
    pub last: u16,
    pub fallback: u8,
    pub pending: Pending,
}

#[tactic(auto, unfolding(crate::specs::Records::record_head_at))]
fn next_head(words: &mut Words<'_>) -> Result<Head, Reason>
    ensures found { read_to result words.new.at ≡ record_head_at words.old.line.now words.old.at }
    ensures line { words.new.line ≡ words.old.line }
{
    let memory = next_memory(words)?;
    let last = words.value(65535)?;
    let fallback = words.value(255)?;
    let pending = next_pending(words)?;
    Ok(Head {
        memory,
        last: last as u16,
        fallback: fallback as u8,
        pending,
    })
}

#[tactic(auto, unfolding(crate::specs::Records::place_at, script_words::specs::Words::word_next))]
fn next_place(words: &mut Words<'_>) -> Result<Isdp, Reason>
    ensures found { read_to result words.new.at ≡ place_at words.old.line.now words.old.at }
    ensures moved { words.new ≡ moved words.old }
{
    let Span { from, to } = words.next()?;
    read_place(&words.line[from..to]).ok_or(Reason::BadPlace)
}

fn read_places(mut words: Words<'_>) -> Result<[Isdp; Card::PLACES], Reason>
    ensures { result ≡ places_on most_places words.entry.line.now words.entry.at [] }
{
    let mut places = [Isdp::none(); Card::PLACES];
    for place in &mut places {
        *place = next_place(&mut words)?;
    }
    Ok(places)
}

// What stands after the EID.
#[tactic(auto, unfolding(crate::specs::Records::record_with))]
fn record_with(mut words: Words<'_>, eid: [u8; 16]) -> Result<Card, Reason>
    ensures { result ≡ record_with words.entry.line.now words.entry.at eid }
{
    let head = next_head(&mut words)?;
    let places = read_places(words)?;
    Ok(Card::with(
        eid,
        head.memory.capacity,
        head.memory.volatile,
        head.memory.free,
        head.last,
        head.fallback,
        head.pending.phase,
        head.pending.kept,
        places,
    ))
}

// The record of the words after `card`.
#[tactic(auto, unfolding(crate::specs::Records::record_at, script_words::specs::Words::word_next, base_choice::specs::Choice::pick, base_choice::specs::Choice::is_same))]
pub fn record_at(mut words: Words<'_>) -> Result<Card, Reason>
    ensures { result ≡ record_at words.entry.line.now words.entry.at }
{
    let Span { from, to } = words.next()?;
    let mut eid = [0u8; 16];
    let n = read_hex(&words.line[from..to], &mut eid).map_err(|_| Reason::BadHex)?;
    if n != 16 {
        return Err(Reason::BadHex);
    }
    record_with(words, eid)
}
