// Reads from a reader into a window of lines. A read that failed is told from the end of the input (decision B27). What could not be
// read or written is told on standard error.
#![tactic(auto)]

ghost use Rattle.std.specs.Prelude.{◌≡◌, ◌<◌, ◌≤◌, length, take, OnOk, IsUtf8};
ghost use Rattle.std.specs.Io.KnownBytes.{Consumes, IsAtEnd};
ghost use Rattle.text_input.specs.Filled.{arrival_of, FilledFrom, BroughtBy};
ghost use Rattle.text_input.specs.Inputs.{input_remaining};

use std::fs::File;
use std::io;
use std::io::{ErrorKind, Read, Stdin};
use text_lines::Window;

// Four ways on; a failure is one of them and told without its error (decision B27), so no Result. `Brings` of specs/ is by its cases.
#[derive(Clone, Copy)]
pub enum Arrival {
    Bytes,
    End,
    Failed,
    Full,
}

// What the answer of a read with room says.
pub fn arrival_of(read: &io::Result<usize>) -> Arrival
    ensures { result ≡ arrival_of read.now }
{
    match read {
        Ok(0) => Arrival::End,
        Ok(_) => Arrival::Bytes,
        Err(_) => Arrival::Failed,
    }
}

// One read, behind what the window holds. Without room it reads nothing, since a read of no bytes could not be told from the end.
pub fn fill<R: Read>(input: &mut R, window: &mut Window, buf: &mut [u8]) -> Arrival
    ensures filled { FilledFrom window.old buf.old window.new result buf.new }
    ensures brought { BroughtBy (R.remaining input.old) (R.remaining input.new) window.old buf.old window.new result buf.new }
{
    window.keep(buf);
    // named, since what stands behind it is lent to the reader
    let end = window.end;
    if buf.len() <= end {
        return Arrival::Full;
    }
    let read = input.read(&mut buf[end..]);
    let arrival = arrival_of(&read);
    if let Ok(n) = read {
        window.grow(n, buf.len());
        return arrival;
    }
    arrival
}

// Reads to the buffer's start, until the input ends, the buffer is full or a read fails: how many bytes were read, and the failure.
pub fn read_full<R: Read>(input: &mut R, buf: &mut [u8]) -> (usize, io::Result<()>)
    ensures within { result.0 ≤ length buf.new }
    ensures bytes { Consumes (R.remaining input.old) (R.remaining input.new) (take result.0 buf.new) }
    ensures whole { OnOk result.1 (result.0 < length buf.new → IsAtEnd (R.remaining input.new)) }
{
    let mut filled = 0;
    // No `for` and no `read_exact`: how far a read goes is known after it, and the input's end is no failure.
    while filled < buf.len() {
        match input.read(&mut buf[filled..]) {
            Ok(0) => break,
            Ok(n) => filled += n,
            Err(error) => return (filled, Err(error)),
        }
    }
    (filled, Ok(()))
}

// What a program reads: standard input, or a file. Over any two readers, so that a read of it is held to what theirs bring: of what the
// system's own have, nothing is known.
#[derive(Drop)]
pub enum Input<S = Stdin, F = File> {
    Standard(S),
    File(F),
}

impl<S: Read, F: Read> Read for Input<S, F> {
    ghost remaining = { input_remaining S.remaining F.remaining };

    fn read(&mut self, buf: &mut [u8]) -> io::Result<usize> {
        match self {
            Input::Standard(stdin) => stdin.read(buf),
            Input::File(file) => file.read(buf),
        }
    }
}

// The file of that name, for reading. A name that is no UTF-8 names none that std can open.
pub fn open(rt: &HostRuntime, name: &[u8]) -> io::Result<File>
    ensures { OnOk result (IsUtf8 name.now) }
{
    match str::from_utf8(name) {
        Ok(path) => File::open(rt, path),
        Err(_) => Err(io::Error::from(ErrorKind::InvalidFilename)),
    }
}

// What a program's word names: `-` standard input, any other the file of that name.
pub fn open_word(rt: &HostRuntime, word: &[u8]) -> io::Result<Input>
    ensures { OnOk result (IsUtf8 word.now) }
{
    match str::from_utf8(word) {
        Ok(path) if path == "-" => Ok(Input::Standard(rt.stdin())),
        _ => Ok(Input::File(open(rt, word)?)),
    }
}

// Bytes written to standard output, and how many of them are left to write: none. Where they could not be written, that is told on
// standard error. A number, so that the promise of a caller that keeps it (teapot's `write_out`) rests on it.
pub fn put_out(rt: &HostRuntime, bytes: &[u8]) -> usize
    ensures { result ≡ 0 }
{
    match rt.write_all(bytes) {
        Ok(()) => 0,
        Err(error) => {
            fail(rt, b"standard output", error);
            0
        }
    }
}

// The system's text for an error, without its number.
fn text_of(text: &str) -> &str {
    match text.split_once(" (os error ") {
        Some((front, _)) => front,
        None => text,
    }
}

// A line on standard error: what failed, as the caller names it, a colon and the error's text.
pub fn fail(rt: &HostRuntime, what: &[u8], error: io::Error) {
    let stderr = rt.stderr();
    let _ = stderr.write_all(what);
    let _ = stderr.write_all(b": ");
    let _ = match format!(in rt.alloc(); "{error}") {
        Ok(text) => stderr.write_all(text_of(&text).as_bytes()),
        Err(_) => stderr.print(error),
    };
    let _ = stderr.write_all(b"\n");
}
