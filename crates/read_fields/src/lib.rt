// The data fields of STORE DATA, DELETE and GET STATUS. Every function takes a reader of a window of the whole command; one that does
// not lie in it is wrong. A data field is first read as a list of elements, then in the table's order; an AID is handed on as its place
// in the command. The contracts name a reader's three fields: the grammar's definitions and theorems take bytes and places.
#![tactic(auto, unfolding(crate::proofs::Opened::readers))]

mod request;

ghost use Rattle.std.specs.Prelude.{◌≡◌, is_some};
ghost use Rattle.read_fields.specs.StoreData.{dgi_at, confirmation_at, store_data_at};
ghost use Rattle.read_fields.specs.Delete.{verification_at, deletion_at};
ghost use Rattle.read_fields.specs.GetStatus.{tag_noted, listed_at, tags_at, listing_at};

use base_bytes::read_pair;
pub use card_isdp::Tags;
use read_elements::Reader;
use read_tlv::read_tag;
pub use request::Request;

// A DGI that fills the window: its number, and where its contents start.
#[derive(Clone, Copy)]
pub struct Dgi {
    pub number: u16,
    pub start: usize,
}

pub fn read_dgi(field: Reader<'_>) -> Option<Dgi>
    ensures { result ≡ dgi_at field.entry.bytes.now field.entry.at field.entry.end }
{
    if field.bytes.len() < field.end {
        return None;
    }
    if field.end < field.at {
        return None;
    }
    let room = field.end - field.at;
    if room < 3 {
        return None;
    }
    let place = field.at + 2;
    let count = field.bytes[place] as usize;
    if 0xFE < count {
        return None;
    }
    let start = field.at + 3;
    if field.end - start != count {
        return None;
    }
    Some(Dgi {
        number: read_pair(field.bytes, field.at),
        start,
    })
}

// DGIs, which a command may have of any value: `dgi_at` gives the number.
const ENABLE: u16 = 0x3A03;

const DISABLE: u16 = 0x3A04;

const SET_FALL_BACK: u16 = 0x3A05;

const CONFIRMATION: u16 = 0x3A08;

fn read_confirmation(contents: Reader<'_>) -> Option<Request>
    ensures { result ≡ confirmation_at contents.entry.bytes.now contents.entry.at contents.entry.end }
{
    let number = contents.last(0x4E, 2, 2)?;
    Some(Request::Confirm(read_pair(contents.bytes, number.start)))
}

pub fn read_store_data(field: Reader<'_>) -> Option<Request>
    ensures { result ≡ store_data_at field.entry.bytes.now field.entry.at field.entry.end }
{
    let dgi = read_dgi(field)?;
    let contents = Reader {
        at: dgi.start,
        ..field
    };
    if contents.list_wrong() {
        return None;
    }
    if dgi.number == CONFIRMATION {
        return read_confirmation(contents);
    }
    let aid = contents.last(0x4F, 5, 16)?.part();
    match dgi.number {
        ENABLE => Some(Request::Enable(aid)),
        DISABLE => Some(Request::Disable(aid)),
        SET_FALL_BACK => Some(Request::SetFallBack(aid)),
        _ => None,
    }
}

// What B6 holds in a master delete: 42, 45, 5F20 and 93.
fn read_verification(mut value: Reader<'_>) -> Option<()>
    ensures { is_some result ≡ verification_at value.entry.bytes.now value.entry.at value.entry.end }
{
    value.next(0x42, 1, 255)?;
    value.next(0x45, 1, 255)?;
    value.next(0x5F20, 1, 255)?;
    value.last(0x93, 1, 255)?;
    Some(())
}

// Delete has the AID alone; a master delete goes on with B6 and the token.
pub fn read_deletion(mut field: Reader<'_>) -> Option<Request>
    ensures { result ≡ deletion_at field.entry.bytes.now field.entry.at field.entry.end }
{
    if field.list_wrong() {
        return None;
    }
    let aid = field.next(0x4F, 5, 16)?.part();
    if field.at_end() {
        return Some(Request::Delete(aid));
    }
    let verification = field.next(0xB6, 0, 255)?;
    read_verification(field.inside(verification))?;
    field.last(0x9E, 1, 255)?;
    Some(Request::MasterDelete(aid))
}

fn tag_noted(tag: u16, tags: Tags) -> Option<Tags>
    ensures { result ≡ tag_noted tag tags.life tags.fall_back }
{
    match tag {
        0x4F => Some(tags),
        0x9F70 => Some(Tags { life: true, ..tags }),
        0x53 => Some(Tags {
            fall_back: true,
            ..tags
        }),
        _ => None,
    }
}

fn read_listed(mut list: Reader<'_>) -> Option<Tags>
    ensures { result ≡ listed_at list.entry.bytes.now list.entry.at list.entry.end }
{
    let mut tags = Tags {
        life: false,
        fall_back: false,
    };
    // No `for`: how far a turn goes is known when its tag is read.
    while list.at < list.end {
        let tag = read_tag(list.bytes, list.at, list.end)?;
        tags = tag_noted(tag.tag, tags)?;
        list.at = tag.next;
    }
    Some(tags)
}

// With no 5C both optional tags are shown.
fn read_tags(rest: Reader<'_>) -> Option<Tags>
    ensures { result ≡ tags_at rest.entry.bytes.now rest.entry.at rest.entry.end }
{
    if rest.at_end() {
        return Some(Tags {
            life: true,
            fall_back: true,
        });
    }
    let list = rest.last(0x5C, 0, 255)?;
    read_listed(rest.inside(list))
}

// `next`: a listing that goes on from the kept place, which names no AID.
pub fn read_listing(next: bool, mut field: Reader<'_>) -> Option<Request>
    ensures { result ≡ listing_at next field.entry.bytes.now field.entry.at field.entry.end }
{
    if field.list_wrong() {
        return None;
    }
    let aid = field.next(0x4F, 0, 16)?;
    let tags = read_tags(field)?;
    if aid.len() == 0 {
        return Some(Request::GetStatusOfAll { next, tags });
    }
    if next {
        return None;
    }
    if aid.len() < 5 {
        return None;
    }
    Some(Request::GetStatusOfOne {
        aid: aid.part(),
        tags,
    })
}
