// minutes: reports how many minutes each profile was enabled, from event files (docs/EVENTS.md). Its words are taken from left to right:
// `explain`, what follows is written for a person; `-`, standard input is read as a file; any other names an event file (decision B52).
// What a file means and what is written of it is proved below, in `month_account`; here only bytes are moved.
#![tactic(auto)]

use base_bytes::same;
use month_account::write_month;
use month_contents::MOST_FILE;
use std::env::Env;
use text_input::{Input, fail, open_word, put_out, read_full};

// A file of so many bytes is refused whatever they are, so no more are read (decision B44).
const FILE: usize = MOST_FILE + 1;

// The longest text has room.
const OUT: usize = 8192;

// One file, read and reported by one write; a read that fails is told instead.
fn tell(rt: &HostRuntime, input: &mut Input, explain: bool) {
    let mut file = [0u8; FILE];
    let mut out = [0u8; OUT];
    let (n, read) = read_full(input, &mut file);
    if read.is_err() {
        put_out(rt, b"the read failed\n");
        return;
    }
    let end = write_month(&file[..n], explain, &mut out, 0);
    put_out(rt, &out[..end]);
}

// What the words before a file ask of its report, and whether a file was named.
// `named` is of the run, with no value beside it: was any file named?
#[derive(Clone, Copy)]
struct Options {
    explain: bool,
    named: bool,
}

// The file that a word names.
// As in teapot: one over a closure would promise no more than `open_word` does, and each would still name what it runs.
fn start(rt: &HostRuntime, word: &[u8], explain: bool) {
    match open_word(rt, word) {
        Ok(mut input) => tell(rt, &mut input, explain),
        Err(error) => fail(rt, word, error),
    }
}

// One word: an option for what follows, or a file, which is reported.
// As in teapot, but for its options: one over closures would lend each program's options twice.
fn take_word(rt: &HostRuntime, word: &[u8], options: Options) -> Options {
    let mut after = options;
    if same(word, b"explain") {
        after.explain = true;
        return after;
    }
    start(rt, word, options.explain);
    after.named = true;
    after
}

fn main(rt: HostRuntime) {
    let mut options = Options {
        explain: false,
        named: false,
    };
    let mut word = [0u8; 4096];
    // By number, into lent memory: std's iterator of words allocates and refuses words that are no UTF-8.
    for place in 1..usize::MAX {
        let Ok(n @ 1..) = rt.arg(place, &mut word) else {
            break;
        };
        options = take_word(&rt, &word[..n], options);
    }
    if !options.named {
        start(&rt, b"-", options.explain);
    }
}
