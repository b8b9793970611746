// The status words of document 01, each a case of one enum with its number.
// The order of the cases is that of the table's rows; the two words of success stand last, 90 00 at the end, as in the paper.
#![tactic(auto)]

ghost use Rattle.std.specs.Prelude.{◌≡◌};
ghost use Rattle.base_status.specs.StatusWords.{number_of, is_done};

#[derive(Clone, Copy)]
pub enum Status {
    Unsound = 0x6F00,
    BufferShort = 0x6F02,
    LengthWrong = 0x6700,
    ClassWrong = 0x6E00,
    InstructionWrong = 0x6D00,
    ParametersWrong = 0x6A86,
    DataWrong = 0x6A80,
    StateWrong = 0x6985,
    NotHeld = 0x6A88,
    PolicyForbids = 0x69E1,
    VerdictWrong = 0x6982,
    NoRoom = 0x6A84,
    // 63 10: a success, and rows are left
    More = 0x6310,
    Done = 0x9000,
}

impl Status {
    // A method and no `From`: docs/FORMS.md names it for `number_of`, which the promises use.
    pub fn number(self) -> u16
        ensures { result ≡ number_of self }
    {
        self as u16
    }

    pub fn is_done(self) -> bool
        ensures { result ≡ is_done self }
    {
        matches!(self, Status::Done | Status::More)
    }
}
