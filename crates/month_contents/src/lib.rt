// The contents of an event file: which sections it lists, and whether their bodies lie end to end (docs/EVENTS.md, 'The file').
// Every function answers for every byte string. What a body holds is not asked here.
#![tactic(auto)]

ghost use Rattle.std.specs.Prelude.{◌≡◌, ◌+◌, ◌≤◌};
ghost use Rattle.base_bytes.specs.Bytes.{four_at};
ghost use Rattle.month_contents.specs.Below.{some_below};
ghost use Rattle.month_contents.specs.Contents.{is_known, sections, entry_at, kind_at, start_at, body_length, stop_at, contents_end, same_kind, kind_wrong, apart, overlap, body_wrong, not_filled, contents_wrong, section_of};

use base_bytes::{Part, read_four};

// The most bytes of a file.
pub const MOST_FILE: usize = 65536;

// The section kinds: the fresh card's inputs, and the events. An entry's kind is any number of four bytes, so they are numbers: entries of
// unknown kind are compared too (`same_kind`).
pub const FRESH: u32 = 1;

pub const EVENTS: u32 = 2;

fn is_known(kind: u32) -> bool
    ensures { result ≡ is_known kind }
{
    (kind == FRESH) | (kind == EVENTS)
}

// How many sections the contents list, as far as the file goes: a number that it lacks reads as 0.
fn sections(s: &[u8]) -> u32
    ensures { result ≡ sections s.now }
{
    read_four(s, 0)
}

// Where the entry of a section stands.
fn entry_at(i: u32) -> usize
    ensures { result ≡ entry_at i }
{
    let before = i as usize * 12;
    4 + before
}

fn contents_end(s: &[u8]) -> usize
    ensures { result ≡ contents_end s.now }
{
    entry_at(sections(s))
}

// A number of four bytes of an entry, by where it stands in it. An entry is asked by its number: the definitions of specs/Contents have a
// figure of section i each.
fn figure_at<const AT: usize>(s: &[u8], i: u32) -> u32
    requires { AT ≤ 8 }
    ensures { result ≡ four_at s.now (entry_at i + AT) }
{
    read_four(s, entry_at(i) + AT)
}

fn kind_at(s: &[u8], i: u32) -> u32
    ensures { result ≡ kind_at s.now i }
{
    figure_at::<0>(s, i)
}

fn start_at(s: &[u8], i: u32) -> usize
    ensures { result ≡ start_at s.now i }
{
    figure_at::<4>(s, i) as usize
}

fn body_length(s: &[u8], i: u32) -> usize
    ensures { result ≡ body_length s.now i }
{
    figure_at::<8>(s, i) as usize
}

// Where a body ends: a sum of two numbers of four bytes, which a usize holds.
fn stop_at(s: &[u8], i: u32) -> usize
    ensures { result ≡ stop_at s.now i }
{
    figure_at::<4>(s, i) as usize + figure_at::<8>(s, i) as usize
}

// Are two entries of one kind?
fn same_kind(s: &[u8], i: u32, j: u32) -> bool
    ensures { result ≡ same_kind s.now i j }
{
    let earlier = kind_at(s, j);
    let kind = kind_at(s, i);
    earlier == kind
}

// Is the kind of an entry listed before it?
fn listed_before(s: &[u8], i: u32) -> bool
    ensures { result ≡ some_below i (same_kind s.now i) }
{
    (0..i).any(|j| same_kind(s, i, j))
}

fn kind_wrong(s: &[u8], i: u32) -> bool
    ensures { result ≡ kind_wrong s.now i }
{
    let known = is_known(kind_at(s, i));
    let twice = listed_before(s, i);
    !known | twice
}

// Is some section's kind wrong? No search goes past the first that is.
fn some_kind_wrong(s: &[u8]) -> bool
    ensures { result ≡ some_below (sections s.now) (kind_wrong s.now) }
{
    (0..sections(s)).any(|i| kind_wrong(s, i))
}

// Does one of two bodies end where the other begins, or before? The other is from `begin` to `end`.
fn apart(start: usize, stop: usize, begin: usize, end: usize) -> bool
    ensures { result ≡ apart start stop begin end }
{
    (end <= start) | (stop <= begin)
}

fn overlaps(s: &[u8], i: u32, j: u32) -> bool
    ensures { result ≡ overlap s.now i j }
{
    let start = start_at(s, i);
    let stop = stop_at(s, i);
    let begin = start_at(s, j);
    let end = stop_at(s, j);
    !apart(start, stop, begin, end)
}

// Does a body overlap one that is listed before it?
fn overlaps_before(s: &[u8], i: u32) -> bool
    ensures { result ≡ some_below i (overlap s.now i) }
{
    (0..i).any(|j| overlaps(s, i, j))
}

fn body_wrong(s: &[u8], i: u32) -> bool
    ensures { result ≡ body_wrong s.now i }
{
    let early = start_at(s, i) < contents_end(s);
    let late = s.len() < stop_at(s, i);
    let over = overlaps_before(s, i);
    early | (late | over)
}

// Does some body lie wrong?
fn some_body_wrong(s: &[u8]) -> bool
    ensures { result ≡ some_below (sections s.now) (body_wrong s.now) }
{
    (0..sections(s)).any(|i| body_wrong(s, i))
}

// Do the bodies' lengths miss the end of the file? Each is taken off what is left, since their sum could pass 64 bits.
fn not_filled(s: &[u8]) -> bool
    ensures { result ≡ not_filled s.now }
{
    let end = contents_end(s);
    if s.len() < end {
        return true;
    }
    let mut left = s.len() - end;
    for i in 0..sections(s) {
        let length = body_length(s, i);
        if left < length {
            return true;
        }
        left -= length;
    }
    left != 0
}

// Are the contents wrong? Contents that pass the end of the file are refused first, so that no search goes past it.
pub fn contents_wrong(s: &[u8]) -> bool
    ensures { result ≡ contents_wrong s.now }
{
    if s.len() > MOST_FILE {
        return true;
    }
    if s.len() < 4 {
        return true;
    }
    if s.len() < contents_end(s) {
        return true;
    }
    if some_kind_wrong(s) {
        return true;
    }
    if some_body_wrong(s) {
        return true;
    }
    not_filled(s)
}

// Where the body of the first section of a kind lies, if one is listed. It is asked of contents that are not wrong: there a search is as
// long as there are kinds.
pub fn section_of(s: &[u8], kind: u32) -> Option<Part>
    ensures { result ≡ section_of s.now kind }
{
    let i = (0..sections(s)).find(|i| kind_at(s, *i) == kind)?;
    Some(Part {
        start: start_at(s, i),
        len: body_length(s, i),
    })
}
