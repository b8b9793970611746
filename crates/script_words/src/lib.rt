// The words of a line after its first: the next one as a byte string or as a number, and what is wrong with a line.
// The methods of `Words` answer for every line and every place in it.
#![tactic(auto)]

ghost use Rattle.std.specs.Prelude.{◌≡◌, ◌<◌, ◌≤◌, IfOk, length};
ghost use Rattle.script_words.specs.Arguments.{bytes_at, value_at};
ghost use Rattle.script_words.specs.Words.{read_to, moved, word_next};

use base_bytes::Part;
use text_words::{Span, decimal, is_hex, next_word};

// What is wrong with a line.
#[derive(Clone, Copy)]
pub enum Reason {
    TooLong,
    UnknownWord,
    WordsMissing,
    TooManyWords,
    BadHex,
    BadNumber,
    BadPlace,
    BadPhase,
}

// The most that a number of a line can be.
pub const MOST_NUMBER: u32 = 4294967295;

// What was read of a line, and the place after it, as the definitions have it: `on_next` hands it on.
#[derive(Clone, Copy)]
pub struct Read<T> {
    pub value: T,
    pub next: usize,
}

// A line and a place in it: what is read is the next word, and the place moves past it.
#[derive(Clone, Copy)]
pub struct Words<'a> {
    pub line: &'a [u8],
    pub at: usize,
}

impl<'a> Words<'a> {
    pub fn new(line: &'a [u8], at: usize) -> Words<'a>
        ensures { result ≡ record { line = line.entry; at = at } }
    {
        Words { line, at }
    }

    // The next word; where there is none, the place stays.
    #[tactic(auto, unfolding(crate::specs::Words::word_next))]
    pub fn next(&mut self) -> Result<Span, Reason>
        ensures found { read_to result self.new.at ≡ word_next self.old.line.now self.old.at }
        ensures moved { self.new ≡ moved self.old }
        ensures inside { IfOk result (λ w. (w.from < w.to) × (w.to ≤ length self.old.line.now)) }
    {
        let word = next_word(self.line, self.at).ok_or(Reason::WordsMissing)?;
        self.at = word.to;
        Ok(word)
    }

    // A byte string, by the part of the line that spells it.
    #[tactic(auto, unfolding(crate::specs::Arguments::bytes_at, crate::specs::Words::word_next, base_choice::specs::Choice::pick))]
    pub fn bytes(&mut self) -> Result<Part, Reason>
        ensures found { read_to result self.new.at ≡ bytes_at self.old.line.now self.old.at }
        ensures moved { self.new ≡ moved self.old }
    {
        let Span { from, to } = self.next()?;
        if !is_hex(&self.line[from..to]) {
            return Err(Reason::BadHex);
        }
        Ok(Part {
            start: from,
            len: to - from,
        })
    }

    #[tactic(auto, unfolding(crate::specs::Arguments::value_at, crate::specs::Words::word_next))]
    pub fn value(&mut self, most: u32) -> Result<u32, Reason>
        ensures found { read_to result self.new.at ≡ value_at most self.old.line.now self.old.at }
        ensures within { IfOk result (λ n. n ≤ most) }
        ensures moved { self.new ≡ moved self.old }
    {
        let Span { from, to } = self.next()?;
        decimal(&self.line[from..to], most).ok_or(Reason::BadNumber)
    }
}
