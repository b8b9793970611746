// teapot: runs scripts of calls through the manager and writes an answer for each call; answers are collected while lines are at hand,
// and written out before the program waits for more. Its words are taken from left to right: `explain`, what follows is written for a
// person; `ask`, every call asks whether the card is sound; `-`, standard input is run; any other names a script's file, which is run.
// What a line means and what is written of it is proved below, in `script_session`; here only bytes are moved.
#![tactic(auto)]

ghost use Rattle.std.specs.Prelude.{◌≡◌, ◌+◌, ◌≤◌, ℕ};
ghost use Rattle.script_reply.specs.Replies.{most_text};

use base_bytes::same;
use script_line::MOST_ROOM;
use script_session::{MOST_BYTES, Turn, take_line};
use std::env::Env;
use std::marker::Model;
use text_input::{Arrival, Input, fail, fill, open_word, put_out};
use text_lines::{Found, LONGEST, Window};

// The bytes collected before they are written out, and the room that is kept for the answer of one line: no answer is longer, which
// `make_room` promises (decision B30).
const OUT: usize = 32768;

const ANSWER: usize = 16384;

// What the words before a script ask of its run, and whether a script was named.
// `named` is of the run, with no value beside it: was any file named?
#[derive(Clone, Copy)]
struct Options {
    explain: bool,
    ask: bool,
    named: bool,
}

// A script's run: its session, the lines counted, what is lent to a call, and the answers that are still to be written out.
// Contracts see how many bytes these have.
#[derive(Drop)]
struct Session {
    turn: Turn,
    number: u64,
    bytes: [u8; MOST_BYTES],
    response: [u8; MOST_ROOM],
    out: [u8; OUT],
}

impl Model for Session {
    ghost Value = { ℕ };

    ghost view = { λ s. s.turn.filled };

    ghost invariant = { λ s. s.turn.filled ≤ 32768 };
}

impl Session {
    fn new() -> Session
        ensures { result ≡ 0 }
    {
        Session {
            turn: Turn::first(),
            number: 0,
            bytes: [0; MOST_BYTES],
            response: [0; MOST_ROOM],
            out: [0; OUT],
        }
    }

    // What is collected is written out; none of it is left to write.
    fn write_out(&mut self, rt: &HostRuntime)
        ensures { self.new ≡ 0 }
    {
        self.turn.filled = put_out(rt, &self.out[..self.turn.filled]);
    }

    // The same where the room for one more answer is short: after it the longest answer has room.
    fn make_room(&mut self, rt: &HostRuntime)
        ensures { self.new + most_text ≤ 32768 }
    {
        if OUT - ANSWER < self.turn.filled {
            self.write_out(rt);
        }
    }

    // More of the script, or its end. What is collected is written out before the program waits for it (decision B30).
    fn wait(
        &mut self,
        rt: &HostRuntime,
        input: &mut Input,
        window: &mut Window,
        buf: &mut [u8],
    ) -> Arrival
        ensures { self.new ≡ 0 }
    {
        self.write_out(rt);
        fill(input, window, buf)
    }

    // A line is counted and answered; the longest answer has room.
    fn take(&mut self, options: Options, line: &[u8])
        requires { self.old + most_text ≤ 32768 }
    {
        self.number = self.number.saturating_add(1);
        self.turn.sound = self.turn.sound & !options.ask;
        self.turn = take_line(
            self.turn,
            options.explain,
            self.number,
            line,
            &mut self.bytes,
            &mut self.response,
            &mut self.out,
        );
    }

    // Room is made for a line's answer before the line is taken (decision B30).
    fn answer(&mut self, rt: &HostRuntime, options: Options, line: &[u8]) {
        self.make_room(rt);
        self.take(options, line);
    }
}

// A line at a time, until the script ends or a line cannot be read. A line that is too long is told by as many bytes as no line may have.
fn run(rt: &HostRuntime, input: &mut Input, options: Options) {
    let mut buf = [0u8; 16384];
    let mut window = Window::fresh();
    let mut last = false;
    let mut session = Session::new();
    // Bounded, so that the run ends by itself: no script has so many lines.
    for _ in 0..u64::MAX {
        match window.next(&buf, last) {
            Found::Line { from, to } => session.answer(rt, options, &buf[from..to]),
            Found::TooLong => session.answer(rt, options, &buf[..LONGEST + 1]),
            Found::More => match session.wait(rt, input, &mut window, &mut buf) {
                Arrival::Bytes => {}
                Arrival::End => last = true,
                Arrival::Failed => {
                    put_out(rt, b"the read failed\n");
                    break;
                }
                Arrival::Full => break,
            },
            Found::End => break,
        }
        if !session.turn.goes {
            break;
        }
    }
    session.write_out(rt);
}

// The script that a word names.
// As in minutes: one over a closure would promise no more than `open_word` does, and each would still name what it runs.
fn start(rt: &HostRuntime, word: &[u8], options: Options) {
    match open_word(rt, word) {
        Ok(mut input) => run(rt, &mut input, options),
        Err(error) => fail(rt, word, error),
    }
}

// One word: an option for what follows, or a script, which is run.
// As in minutes, but for its options: one over closures would lend each program's options twice.
fn take_word(rt: &HostRuntime, word: &[u8], options: Options) -> Options {
    let mut after = options;
    if same(word, b"explain") {
        after.explain = true;
        return after;
    }
    if same(word, b"ask") {
        after.ask = true;
        return after;
    }
    start(rt, word, options);
    after.named = true;
    after
}

fn main(rt: HostRuntime) {
    let mut options = Options {
        explain: false,
        ask: false,
        named: false,
    };
    let mut word = [0u8; 4096];
    // By number, into lent memory: std's iterator of words allocates and refuses words that are no UTF-8.
    for place in 1..usize::MAX {
        let Ok(n @ 1..) = rt.arg(place, &mut word) else {
            break;
        };
        options = take_word(&rt, &word[..n], options);
    }
    if !options.named {
        start(&rt, b"-", options);
    }
}
