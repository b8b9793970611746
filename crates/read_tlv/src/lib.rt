// Document 01, 'Reading a command': tags, lengths, elements and lists of elements, read in a window of a slice.
// A window is the bytes from `at` up to `end`; one that does not lie in the slice holds nothing, and nothing is read there. It goes in as
// its numbers, since document 01 has a reader of slice and number under the reader struct (`read_elements`).
#![tactic(auto, unfolding(crate::proofs::Opened::readers))]

ghost use Rattle.std.specs.Prelude.{◌≡◌, ℕ, ◌≤◌, ◌-◌};
ghost use Rattle.base_bytes.specs.Bytes.{between};
ghost use Rattle.read_tlv.specs.Tlv.{tag_at, length_at, head_at, expect_at};
ghost use Rattle.read_tlv.specs.Lists.{list_at, element_at, list_wrong};

use base_bytes::Part;

// The tag's number is its one byte, or its two bytes, high byte first; `next` is the place after it.
#[derive(Clone, Copy)]
pub struct Tag {
    pub tag: u16,
    pub constructed: bool,
    pub next: usize,
}

pub fn read_tag(s: &[u8], at: usize, end: usize) -> Option<Tag>
    ensures { result ≡ tag_at s.now at end }
{
    if s.len() < end {
        return None;
    }
    if end <= at {
        return None;
    }
    let first = s[at] as u16;
    let constructed = first / 32 % 2 == 1;
    let after = at + 1;
    if first % 32 != 31 {
        return Some(Tag {
            tag: first,
            constructed,
            next: after,
        });
    }
    if end <= after {
        return None;
    }
    let second = s[after] as u16;
    if 0x80 <= second {
        return None;
    }
    Some(Tag {
        tag: first * 256 + second,
        constructed,
        next: after + 1,
    })
}

#[derive(Clone, Copy)]
pub struct Length {
    pub count: usize,
    pub next: usize,
}

pub fn read_length(s: &[u8], at: usize, end: usize) -> Option<Length>
    ensures { result ≡ length_at s.now at end }
{
    if s.len() < end {
        return None;
    }
    if end <= at {
        return None;
    }
    let first = s[at] as usize;
    let after = at + 1;
    if first < 0x80 {
        return Some(Length {
            count: first,
            next: after,
        });
    }
    if first != 0x81 {
        return None;
    }
    if end <= after {
        return None;
    }
    let second = s[after] as usize;
    if second < 0x80 {
        return None;
    }
    Some(Length {
        count: second,
        next: after + 1,
    })
}

// The value stands from `start` up to `stop`, which is the place after the element.
#[derive(Clone, Copy)]
pub struct Head {
    pub tag: u16,
    pub constructed: bool,
    pub start: usize,
    pub stop: usize,
}

pub fn read_head(s: &[u8], at: usize, end: usize) -> Option<Head>
    ensures { result ≡ head_at s.now at end }
{
    let tag = read_tag(s, at, end)?;
    let length = read_length(s, tag.next, end)?;
    let start = length.next;
    let room = end - start;
    if room < length.count {
        return None;
    }
    Some(Head {
        tag: tag.tag,
        constructed: tag.constructed,
        start,
        stop: start + length.count,
    })
}

// Where an element's value starts and stops. No `Span` of text_words: a reader of commands knows no text.
#[derive(Clone, Copy)]
pub struct Element {
    pub start: usize,
    pub stop: usize,
}

impl Element {
    // How many bytes the value has.
    pub fn len(self) -> usize
        ensures { result ≡ self.stop - self.start }
    {
        self.stop.saturating_sub(self.start)
    }

    // The value as a part of the bytes.
    pub fn part(self) -> Part
        ensures { result ≡ between self.start self.stop }
    {
        Part {
            start: self.start,
            len: self.len(),
        }
    }
}

// The next element, where it bears the tag that the table has there and its value has `low` to `high` bytes.
// Tag and bounds are the table's row, and stand at the call, where the paper has them.
pub fn expect(s: &[u8], at: usize, end: usize, tag: u16, low: usize, high: usize) -> Option<Element>
    ensures { result ≡ expect_at s.now at end tag low high }
{
    let head = read_head(s, at, end)?;
    if head.tag != tag {
        return None;
    }
    let count = head.stop - head.start;
    if count < low {
        return None;
    }
    if high < count {
        return None;
    }
    Some(Element {
        start: head.start,
        stop: head.stop,
    })
}

// The outermost list is level 1, and four levels are the most.
const LEVELS: usize = 4;

// Do elements fill the window, at most four levels deep?
#[cycle(read_element_read_list)]
pub fn read_list(s: &[u8], at: usize, end: usize, level: usize) -> bool
    ensures { result ≡ list_at s.now at end level }
{
    if s.len() < end {
        return false;
    }
    if end < at {
        return false;
    }
    if level < 1 {
        return false;
    }
    if LEVELS < level {
        return false;
    }
    if at == end {
        return true;
    }
    match read_element(s, at, end, level) {
        None => false,
        Some(next) => read_list(s, next, end, level),
    }
}

// The place after an element, with all that it holds.
#[cycle(read_element_read_list)]
fn read_element(s: &[u8], at: usize, end: usize, level: usize) -> Option<usize>
    requires { level ≤ 4 }
    ensures { result ≡ element_at s.now at end level }
{
    let head = read_head(s, at, end)?;
    if head.constructed {
        if !read_list(s, head.start, head.stop, level + 1) {
            return None;
        }
    }
    Some(head.stop)
}

// Is the window no list of elements? They have to fill it exactly, at most four levels deep.
pub fn list_wrong(s: &[u8], at: usize, end: usize) -> bool
    ensures { result ≡ list_wrong s.now at end }
{
    !read_list(s, at, end, 1)
}
