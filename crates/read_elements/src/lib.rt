// Document 01, 'Reading a command': "Elements fill their list exactly and come in the order of the table".
// A reader holds the data field, the bytes up to `end`, and a position in it. Its methods are thin, over `read_tlv::expect`.
#![tactic(auto)]

ghost use Rattle.std.specs.Prelude.{◌≡◌};
ghost use Rattle.read_tlv.specs.Tlv.{expect_at};
ghost use Rattle.read_tlv.specs.Lists.{list_wrong};
ghost use Rattle.read_elements.specs.Reader.{moved, at_end, alone_at};

use read_tlv::{Element, expect, list_wrong};

#[derive(Clone, Copy)]
pub struct Reader<'a> {
    pub bytes: &'a [u8],
    pub at: usize,
    pub end: usize,
}

impl<'a> Reader<'a> {
    pub fn new(bytes: &'a [u8], at: usize, end: usize) -> Reader<'a>
        ensures { result ≡ record { bytes = bytes.entry; at = at; end = end } }
    {
        Reader { bytes, at, end }
    }

    // A reader of an element's value.
    pub fn inside(&self, element: Element) -> Reader<'a>
        ensures { result ≡ record { bytes = self.now.bytes; at = element.start; end = element.stop } }
    {
        Reader {
            bytes: self.bytes,
            at: element.start,
            end: element.stop,
        }
    }

    // The element that the table has at the position, which moves past it; where there is none, it stays.
    pub fn next(&mut self, tag: u16, low: usize, high: usize) -> Option<Element>
        ensures found { result ≡ expect_at self.old.bytes.now self.old.at self.old.end tag low high }
        ensures moved { self.new ≡ moved self.old result }
    {
        let found = expect(self.bytes, self.at, self.end, tag, low, high)?;
        self.at = found.stop;
        Some(found)
    }

    // Is what is left no list of elements?
    pub fn list_wrong(&self) -> bool
        ensures { result ≡ list_wrong self.now.bytes.now self.now.at self.now.end }
    {
        list_wrong(self.bytes, self.at, self.end)
    }

    pub fn at_end(&self) -> bool
        ensures { result ≡ at_end self.now }
    {
        self.at == self.end
    }

    // The element that the table has there, where nothing comes after it.
    #[tactic(auto, unfolding(crate::specs::Reader::alone_at, base_choice::specs::Choice::pick, base_choice::specs::Choice::is_same))]
    pub fn last(mut self, tag: u16, low: usize, high: usize) -> Option<Element>
        ensures { result ≡ alone_at self.entry.bytes.now self.entry.at self.entry.end tag low high }
    {
        let found = self.next(tag, low, high)?;
        self.at_end().then_some(found)
    }
}
