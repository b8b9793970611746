// The lines of a report: which AIDs have one, and the minutes on each (docs/EVENTS.md, 'The report').
// Every function answers for every record; no card and no event is known here.
#![tactic(auto)]

ghost use Rattle.std.specs.Prelude.{◌≡◌, ◌≤◌, length};
ghost use Rattle.month_tally.specs.Lines.{most_lines, same_aid, aids_in, line_of, no_names, noted};

use base_bytes::same;
use card_isdp::Aid;

// A line for each of the first AIDs ever enabled, up to so many.
pub const LINES: usize = 64;

// The minutes: a number for each line, and the last for the rest.
pub const MINUTES: usize = LINES + 1;

// The AIDs that have a line, `count` of them, in the order in which each was first enabled; no AIDs after them. Whether there is one
// more, which shares the line of the rest. The library's ArrayVec is no value to copy, and `LinesShown` speaks of `count` and `more`.
#[derive(Clone, Copy)]
pub struct Names {
    pub aids: [Aid; LINES],
    pub count: u8,
    pub more: bool,
}

// What a report tells beside the minutes, which stand in lent memory (decision B51).
#[derive(Clone, Copy)]
pub struct Tally {
    pub names: Names,
    pub ticks: u32,
    pub events: u32,
    pub refused: u32,
}

// Have the two AIDs the same length and the same bytes? A derived equality would ask the bytes after them too (`SameAids`).
pub fn same_aid(a: Aid, b: Aid) -> bool
    ensures { result ≡ same_aid a b }
{
    same(a.as_slice(), b.as_slice())
}

impl Names {
    pub fn none() -> Names
        ensures { result ≡ no_names }
    {
        Names {
            aids: [Aid::none(); LINES],
            count: 0,
            more: false,
        }
    }

    // How many AIDs have a line.
    pub fn lines(self) -> usize
        ensures { (result ≡ length (aids_in self)) × (result ≤ most_lines) }
    {
        usize::from(self.count).min(LINES)
    }

    // The AIDs that have a line.
    pub fn listed(&self) -> &[Aid]
        ensures { result.now ≡ aids_in self.now }
    {
        let n = self.lines();
        &self.aids[..n]
    }

    // The number of the line of an AID, or that of the rest.
    pub fn line(&self, aid: Aid) -> usize
        ensures { result ≡ line_of self.now aid }
    {
        self.listed()
            .iter()
            .position(|name| same_aid(*name, aid))
            .unwrap_or(LINES)
    }

    // An AID that is enabled: it has its line, or gets the next one, or is among the rest.
    pub fn noted(self, aid: Aid) -> Names
        ensures { result ≡ noted self aid }
    {
        if self.line(aid) < LINES {
            return self;
        }
        let mut names = self;
        let n = self.count as usize;
        if n < LINES {
            names.aids[n] = aid;
            names.count = self.count + 1;
            return names;
        }
        names.more = true;
        names
    }
}
