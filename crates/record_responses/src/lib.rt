// The responses of the commands, written by a `Writer`.
// Every function answers for every record and every buffer: what does not fit is dropped, as the writer does.
#![tactic(auto)]

ghost use Rattle.std.specs.Prelude.{◌≡◌, cond, ◌+◌, ◌≤◌, length, drop};
ghost use Rattle.base_bytes.specs.Put.{Written};
ghost use Rattle.card_isdp.specs.Aids.{bytes_of};
ghost use Rattle.card_isdp.specs.Place.{held};
ghost use Rattle.card_places.specs.Places.{count_of};
ghost use Rattle.rule_responses.specs.Responses.{most_row, aid_element, attribute_of, listed, status_row, row_of, row_size, most_response, part_from, next_row_from, part_given, next_row_after, one_status, data_response, deleted_response};

use base_bytes::Writer;
use card_isdp::{Aid, Isdp, Tags};
use card_places::PLACES;
use card_record::Card;

// A response has at most so many bytes.
const RESPONSE: usize = 255;

// The number of ISD-Ps, in the one byte that GET DATA has for it.
pub fn count_held(places: &[Isdp; PLACES]) -> u8
    ensures { result ≡ count_of held places.now }
{
    places.iter().filter(|p| p.aid.len != 0).count() as u8
}

fn write_aid(out: &mut Writer, aid: &Aid)
    ensures { Written out.old (aid_element (bytes_of aid.now)) out.new }
{
    out.bytes(&[0x4F, aid.size() as u8]);
    out.bytes(aid.as_slice());
}

// The bytes that the elements asked for take.
fn listed_size(tags: Tags) -> u8
    ensures { result ≡ cond tags.life 4 0 + cond tags.fall_back 3 0 }
{
    let life = if tags.life { 4 } else { 0 };
    let fall_back = if tags.fall_back { 3 } else { 0 };
    life + fall_back
}

// An element that is written only where it is asked for.
fn write_listed(out: &mut Writer, asked: bool, element: &[u8])
    ensures { Written out.old (listed asked element.now) out.new }
{
    if asked {
        out.bytes(element);
    }
}

fn attribute_of(holder: u8, place: u8) -> u8
    ensures { result ≡ attribute_of holder place }
{
    u8::from(place == holder)
}

fn write_row(out: &mut Writer, p: Isdp, attribute: u8, tags: Tags)
    ensures { Written out.old (status_row p attribute tags.life tags.fall_back) out.new }
{
    out.bytes(&[0xE3, p.aid.size() as u8 + 2 + listed_size(tags)]);
    write_aid(out, &p.aid);
    write_listed(out, tags.life, &[0x9F, 0x70, 1, p.life]);
    write_listed(out, tags.fall_back, &[0x53, 1, attribute]);
}

// A place that is not held has no row.
fn write_place(out: &mut Writer, p: Isdp, attribute: u8, tags: Tags)
    ensures { Written out.old (row_of p attribute tags.life tags.fall_back) out.new × (length (row_of p attribute tags.life tags.fall_back) ≤ most_row) }
{
    if p.aid.len == 0 {
        return;
    }
    write_row(out, p, attribute, tags);
}

// The bytes that a place's row takes.
fn row_size(p: Isdp, tags: Tags) -> usize
    ensures { result ≡ row_size p tags.life tags.fall_back }
{
    if p.aid.len != 0 {
        p.aid.size() + 4 + listed_size(tags) as usize
    } else {
        0
    }
}

// The rows of the places from one on, as many whole rows as a response holds, and the first place whose row is left.
// By number: the answer and the attribute are of a place's number.
fn write_rows(out: &mut Writer, places: &[Isdp; PLACES], holder: u8, from: u8, tags: Tags) -> u8
    ensures { Written out.old (part_from most_response holder from tags.life tags.fall_back (drop from places.now)) out.new × (result ≡ next_row_from most_response holder from tags.life tags.fall_back (drop from places.now)) }
{
    let mut room = RESPONSE;
    for i in from as usize..PLACES {
        let p = places[i];
        let size = row_size(p, tags);
        if room < size {
            return i as u8;
        }
        room -= size;
        write_place(out, p, attribute_of(holder, i as u8), tags);
    }
    Card::NO_PLACE
}

// GET STATUS of all, from a place on; the answer is the place from which the next part goes on, a number as `kept` of the card.
#[tactic(auto, unfolding(rule_responses::specs::Responses::part_given, rule_responses::specs::Responses::next_row_after))]
pub fn write_part(out: &mut Writer, card: &Card, from: u8, tags: Tags) -> u8
    ensures { Written out.old (part_given card.now from tags.life tags.fall_back) out.new × (result ≡ next_row_after card.now from tags.life tags.fall_back) }
{
    write_rows(out, &card.places, card.fallback, from, tags)
}

// GET STATUS of the profile at a place.
pub fn write_one_status(out: &mut Writer, card: &Card, place: u8, tags: Tags)
    ensures { Written out.old (one_status card.now place tags.life tags.fall_back) out.new × (length (one_status card.now place tags.life tags.fall_back) ≤ most_row) }
{
    let p = card_places::at(&card.places, place);
    write_place(out, p, attribute_of(card.fallback, place), tags);
}

// GET DATA: each figure as four bytes, high byte first.
pub fn write_data(out: &mut Writer, card: &Card)
    ensures { Written out.old (data_response card.now) out.new × (length (data_response card.now) ≤ most_row) }
{
    out.bytes(&[0xFF, 0x21, 0x0F, 0x81, 1, count_held(&card.places), 0x82, 4]);
    out.bytes(&card.free.to_be_bytes());
    out.bytes(&[0x83, 4]);
    out.bytes(&card.volatile.to_be_bytes());
}

// Confirmation: the AID deleted, where there is one.
pub fn write_deleted(out: &mut Writer, aid: &Aid)
    ensures { Written out.old (deleted_response aid.now) out.new × (length (deleted_response aid.now) ≤ 20) }
{
    if aid.len == 0 {
        return;
    }
    out.bytes(&[0x80, aid.size() as u8 + 2]);
    write_aid(out, aid);
}
