// Lines put together from reads of any size, in a window: a lent buffer of which a part is not handed out yet. A line is handed out
// where it lies, as soon as its end has arrived; one of more than 4,096 bytes is told as too long, and passed over.
#![tactic(auto, unfolding(crate::proofs::Opened::steps))]

ghost use Rattle.std.specs.Prelude.{◌≡◌, ◌≤◌};
ghost use Rattle.base_bytes.specs.Put.{put};
ghost use Rattle.text_lines.specs.Window.{window_of, fresh_window, gives, found_line, none_left, unended, line_from, step_from, next_line, held_of, moved_down, grown_of};

use text_words::until;

// The most bytes of a line, without its end.
pub const LONGEST: usize = 4096;

// Where a reader stands: the bytes from `at` up to `end` are not handed out yet. Those up to the next line end belong to a line
// that was told as too long where `skipping` is set: a state of the window, with no value beside it. `window_of` and `Cuts` name the
// three fields.
#[derive(Clone, Copy)]
pub struct Window {
    pub at: usize,
    pub end: usize,
    pub skipping: bool,
}

// A line is told by its place in the window, without its line end.
// Four ways on, so no Option: after each the caller goes on differently. `Line` has two places and no `Span`: `found_line` names them so.
#[derive(Clone, Copy)]
pub enum Found {
    Line { from: usize, to: usize },
    TooLong,
    More,
    End,
}

// What was found, and the window after it. No flag: `gives` names both.
#[derive(Clone, Copy)]
struct Step {
    window: Window,
    found: Found,
}

impl Step {
    fn gives(at: usize, end: usize, skipping: bool, found: Found) -> Step
        ensures { result ≡ gives (window_of at end skipping) found }
    {
        let window = Window { at, end, skipping };
        Step { window, found }
    }
}

impl Window {
    pub fn fresh() -> Self
        ensures { result ≡ fresh_window }
    {
        Window {
            at: 0,
            end: 0,
            skipping: false,
        }
    }

    // The next line of the window. `last` says that no byte comes after those in the window.
    pub fn next(&mut self, buf: &[u8], last: bool) -> Found
        ensures { gives self.new result ≡ next_line self.old buf.now last }
    {
        let end = self.end.min(buf.len());
        let step = step_from(&buf[..end], self.at, self.skipping, last);
        *self = step.window;
        step.found
    }

    // Moves what is not handed out to the buffer's start, so that a read can go behind it.
    pub fn keep(&mut self, buf: &mut [u8])
        ensures { (self.new ≡ moved_down self.old buf.old) × (buf.new ≡ put buf.old 0 (held_of self.old buf.old)) }
    {
        let end = self.end.min(buf.len());
        let at = self.at.min(end);
        buf.copy_within(at..end, 0);
        self.at = 0;
        self.end = end - at;
    }

    // Takes in `count` bytes that were read to the buffer behind the window's end.
    pub fn grow(&mut self, count: usize, size: usize)
        ensures { self.new ≡ grown_of self.old count size }
    {
        if self.end < size {
            self.end += count.min(size - self.end);
        }
    }
}

fn found_line(from: usize, to: usize) -> Found
    requires { from ≤ to }
    ensures { result ≡ found_line from to }
{
    if LONGEST < to - from {
        return Found::TooLong;
    }
    Found::Line { from, to }
}

// All was handed out.
fn none_left(end: usize, skipping: bool, last: bool) -> Step
    ensures { result ≡ none_left end skipping last }
{
    if last {
        return Step::gives(end, end, skipping, Found::End);
    }
    Step::gives(end, end, skipping, Found::More)
}

// What stands after the last line end.
fn unended(s: &[u8], from: usize, last: bool) -> Step
    ensures { result ≡ unended s.now from last }
{
    let end = s.len();
    if end <= from {
        return none_left(end, false, last);
    }
    if last {
        return Step::gives(end, end, false, found_line(from, end));
    }
    if LONGEST < end - from {
        return Step::gives(end, end, true, Found::TooLong);
    }
    Step::gives(from, end, false, Found::More)
}

// The line that starts at a place.
fn line_from(s: &[u8], from: usize, last: bool) -> Step
    ensures { result ≡ line_from s.now from last }
{
    let to = until(s, from, b'\n');
    let end = s.len();
    if to < end {
        return Step::gives(to + 1, end, false, found_line(from, to));
    }
    unended(s, from, last)
}

fn step_from(s: &[u8], at: usize, skipping: bool, last: bool) -> Step
    ensures { result ≡ step_from s.now at skipping last }
{
    if skipping {
        let stop = until(s, at, b'\n');
        if s.len() <= stop {
            return none_left(s.len(), true, last);
        }
        return line_from(s, stop + 1, last);
    }
    line_from(s, at, last)
}
