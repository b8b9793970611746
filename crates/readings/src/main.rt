// Reads lines of one hex word, each a command (`-` is the empty one), and writes how it is read with a capacity of 1000: the request, or
// the word of its refusal. Empty lines and lines that begin with `#` are passed over.
#![tactic(auto)]

use base_bytes::{Part, Writer, part_of};
use read_command::{Request, Tags};
use text_input::{put_out, read_full};
use text_words::{put_decimal, put_hex, put_hex_16, read_hex};

const CAPACITY: u32 = 1000;

fn put_named(out: &mut Writer, name: &[u8], bytes: &[u8], aid: Part) {
    out.bytes(name);
    put_hex(out, part_of(bytes, aid));
}

fn put_tags(out: &mut Writer, tags: Tags) {
    let listed: &[u8] = match (tags.life, tags.fall_back) {
        (true, true) => b" 4F,9F70,53",
        (true, false) => b" 4F,9F70",
        (false, true) => b" 4F,53",
        (false, false) => b" 4F",
    };
    out.bytes(listed);
}

fn put_request(out: &mut Writer, bytes: &[u8], request: Request) {
    match request {
        Request::Create { aid, quota } => {
            put_named(out, b"create ", bytes, aid);
            out.byte(b' ');
            put_decimal(out, quota as u64);
        }
        Request::Enable(aid) => put_named(out, b"enable ", bytes, aid),
        Request::Disable(aid) => put_named(out, b"disable ", bytes, aid),
        Request::SetFallBack(aid) => put_named(out, b"set-fall-back ", bytes, aid),
        Request::Delete(aid) => put_named(out, b"delete ", bytes, aid),
        Request::MasterDelete(aid) => put_named(out, b"master-delete ", bytes, aid),
        Request::Confirm(number) => {
            out.bytes(b"confirm ");
            put_decimal(out, number as u64);
        }
        Request::GetStatusOfAll { next, tags } => {
            let listing: &[u8] = if next {
                b"get-status next"
            } else {
                b"get-status all"
            };
            out.bytes(listing);
            put_tags(out, tags);
        }
        Request::GetStatusOfOne { aid, tags } => {
            put_named(out, b"get-status ", bytes, aid);
            put_tags(out, tags);
        }
        Request::GetData => out.bytes(b"get-data"),
    }
}

fn put_reading(out: &mut Writer, bytes: &[u8]) {
    match read_command::read(bytes, CAPACITY) {
        Ok(request) => put_request(out, bytes, request),
        Err(status) => put_hex_16(out, status.number()),
    }
}

// What was written, as a line on standard output.
fn write_line(rt: &HostRuntime, out: &mut Writer) {
    out.byte(b'\n');
    let end = out.at;
    if let Some(line) = out.buf.get(..end) {
        put_out(rt, line);
    }
}

fn answer(rt: &HostRuntime, out: &mut [u8], bytes: &[u8]) {
    let mut line = Writer::new(out, 0);
    put_reading(&mut line, bytes);
    write_line(rt, &mut line);
}

fn answer_line(rt: &HostRuntime, line: &[u8], bytes: &mut [u8], out: &mut [u8]) {
    if line.is_empty() || line[0] == b'#' {
        return;
    }
    let Ok(count) = read_hex(line, bytes) else {
        let mut line = Writer::new(out, 0);
        line.bytes(b"no hex word");
        write_line(rt, &mut line);
        return;
    };
    if bytes.len() < count {
        return;
    }
    answer(rt, out, &bytes[..count]);
}

fn answer_lines(rt: &HostRuntime, text: &[u8], bytes: &mut [u8], out: &mut [u8]) {
    for line in text.split(|c| *c == b'\n') {
        answer_line(rt, line, bytes, out);
    }
}

fn main(rt: HostRuntime) {
    let mut input = [0u8; 262144];
    let mut bytes = [0u8; 131072];
    let mut out = [0u8; 4096];
    let (count, _) = read_full(&mut rt.stdin(), &mut input);
    answer_lines(&rt, &input[..count], &mut bytes, &mut out);
}
