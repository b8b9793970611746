// A writer: the buffer that was lent, and the place where the next byte goes. What does not fit is dropped, and a text that reaches
// the buffer's end leaves the place there, so that texts written one after the other are one text.
// No fmt::Write: `write!` promises its text only where it is Ok, and `Written` says what stands in a buffer that cuts it, too.
ghost use Rattle.std.specs.Prelude.{◌≡◌, ◌∷◌, []};
ghost use Rattle.base_bytes.specs.Put.{Written};

#[derive(Drop)]
pub struct Writer<'a> {
    pub buf: &'a mut [u8],
    pub at: usize,
}

impl<'a> Writer<'a> {
    // A writer that begins at a place of the buffer.
    pub fn new(buf: &'a mut [u8], at: usize) -> Writer<'a>
        ensures same_reference { result.buf.ghost_name ≡ buf.entry.ghost_name }
        ensures as_lent { (result.buf.now ≡ buf.old) × (result.at ≡ at) }
    {
        Writer { buf, at }
    }

    // One byte.
    pub fn byte(&mut self, byte: u8)
        ensures { Written self.old (byte ∷ []) self.new }
    {
        if self.at < self.buf.len() {
            self.buf[self.at] = byte;
            self.at += 1;
        }
    }

    // As many bytes as there is room for.
    fn cut(&mut self, text: &[u8])
        ensures { Written self.old text.now self.new }
    {
        let start = self.at;
        let size = self.buf.len();
        if start < size {
            let n = text.len().min(size - start);
            let end = start + n;
            self.buf[start..end].copy_from_slice(&text[..n]);
            self.at = end;
        }
    }

    // A byte string as it stands, as far as there is room for it. Room is asked for once, as almost every text has it.
    pub fn bytes(&mut self, text: &[u8])
        ensures { Written self.old text.now self.new }
    {
        let start = self.at;
        let size = self.buf.len();
        if start <= size && text.len() <= size - start {
            let end = start + text.len();
            self.buf[start..end].copy_from_slice(text);
            self.at = end;
        } else {
            self.cut(text);
        }
    }
}
