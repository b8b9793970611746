// Create's data field: GP's INSTALL, six fields each after its length, of which the ISD-P's AID and the quota are handed on.
// Every function reads a window of the whole command, which its reader holds; one that does not lie in the command is wrong.
// The contracts name a reader's three fields: the grammar's definitions and theorems take bytes and places.
#![tactic(auto, unfolding(crate::proofs::Opened::readers))]

ghost use Rattle.std.specs.Prelude.{◌≡◌, is_some, IfSome};
ghost use Rattle.read_elements.specs.Reader.{moved};
ghost use Rattle.read_install.specs.Parameters.{protocols_at, number_at, grant_of, memory_at, parameters_at};
ghost use Rattle.read_install.specs.Install.{prefixed_at, names_at, rights_at, install_of};

use base_bytes::{read_four, read_pair};
use read_elements::Reader;
use read_fields::Request;
use read_tlv::{Element, read_length};

// What C9 holds: 81 of two bytes, n times.
fn read_protocols(mut value: Reader<'_>) -> Option<()>
    ensures { is_some result ≡ protocols_at value.entry.bytes.now value.entry.at value.entry.end }
{
    // No `for`: how far a turn goes is known when its element is read.
    while value.at < value.end {
        value.next(0x81, 2, 2)?;
    }
    Some(())
}

// A number of two bytes, or else of four.
fn read_number(s: &[u8], start: usize, count: usize) -> u32
    ensures { result ≡ number_at s.now start count }
{
    if count == 2 {
        return read_pair(s, start) as u32;
    }
    read_four(s, start)
}

fn grant(number: u32, capacity: u32) -> Option<u32>
    ensures { result ≡ grant_of number capacity }
{
    if number == 0 {
        return None;
    }
    if capacity < number {
        return None;
    }
    Some(number)
}

// What EF holds: one 83, of 2 or 4 bytes.
fn read_memory(value: Reader<'_>, capacity: u32) -> Option<u32>
    ensures { result ≡ memory_at value.entry.bytes.now value.entry.at value.entry.end capacity }
{
    let memory = value.last(0x83, 2, 4)?;
    if memory.len() == 3 {
        return None;
    }
    grant(
        read_number(value.bytes, memory.start, memory.len()),
        capacity,
    )
}

// A list of elements: C9, then EF, and nothing after.
fn read_parameters(mut value: Reader<'_>, capacity: u32) -> Option<u32>
    ensures { result ≡ parameters_at value.entry.bytes.now value.entry.at value.entry.end capacity }
{
    if value.list_wrong() {
        return None;
    }
    let protocols = value.next(0xC9, 1, 255)?;
    read_protocols(value.inside(protocols))?;
    let memory = value.last(0xEF, 0, 255)?;
    read_memory(value.inside(memory), capacity)
}

// A field after its length, of `low` to `high` bytes; the reader moves past it, and stays where there is none.
fn read_prefixed(field: &mut Reader<'_>, low: usize, high: usize) -> Option<Element>
    ensures found { result ≡ prefixed_at field.old.bytes.now field.old.at field.old.end low high }
    ensures moved { field.new ≡ moved field.old result }
{
    let length = read_length(field.bytes, field.at, field.end)?;
    let room = field.end - length.next;
    if room < length.count {
        return None;
    }
    if length.count < low {
        return None;
    }
    if high < length.count {
        return None;
    }
    field.at = length.next + length.count;
    Some(Element {
        start: length.next,
        stop: field.at,
    })
}

// Load file AID, module AID and ISD-P AID: where the last stands.
fn read_names(field: &mut Reader<'_>) -> Option<Element>
    ensures found { result ≡ names_at field.old.bytes.now field.old.at field.old.end }
    ensures moved { IfSome result (λ e. field.new ≡ record field.old { at = e.stop }) }
{
    read_prefixed(field, 5, 16)?;
    read_prefixed(field, 5, 16)?;
    read_prefixed(field, 5, 16)
}

// Privileges, install parameters and token, up to the end: where the parameters stand.
fn read_rights(mut field: Reader<'_>) -> Option<Element>
    ensures { result ≡ rights_at field.entry.bytes.now field.entry.at field.entry.end }
{
    let privileges = read_prefixed(&mut field, 1, 3)?;
    if privileges.len() == 2 {
        return None;
    }
    let parameters = read_prefixed(&mut field, 0, 255)?;
    read_prefixed(&mut field, 0, 0)?;
    field.at_end().then_some(parameters)
}

pub fn read_install(mut field: Reader<'_>, capacity: u32) -> Option<Request>
    ensures { result ≡ install_of field.entry.bytes.now field.entry.at field.entry.end capacity }
{
    let aid = read_names(&mut field)?;
    let parameters = read_rights(field)?;
    let quota = read_parameters(field.inside(parameters), capacity)?;
    Some(Request::Create {
        aid: aid.part(),
        quota,
    })
}
