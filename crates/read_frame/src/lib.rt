// The rows of the table that a command meets before its data field is read. Each takes the whole string, of any length;
// a byte that is not there reads as 00, so that a row can be asked whatever the rows before it say.
#![tactic(auto, unfolding(crate::proofs::Opened::tests))]

ghost use Rattle.std.specs.Prelude.{◌≡◌};
ghost use Rattle.read_frame.specs.Rows.{framing_by, word_read};
ghost use Rattle.read_frame.specs.Framing.{length_wrong, class_right, class_wrong, instruction_wrong, parameters_right, parameters_wrong, data_end, shape_wrong};

use base_bytes::byte_at;
use base_status::Status;

// The instructions. Numbers and no enum: the rows ask any byte, and `instruction_wrong` says which.
pub const INSTALL: u8 = 0xE6;

pub const DELETE: u8 = 0xE4;

pub const STORE_DATA: u8 = 0xE2;

pub const GET_STATUS: u8 = 0xF2;

pub const GET_DATA: u8 = 0xCA;

// F2 40/02, and 40/03: request 2026-05. A listing begins anew, or goes on from the kept place. Numbers, as the instructions.
const FIRST_ROWS: u8 = 0x02;

pub const NEXT_ROWS: u8 = 0x03;

pub fn length_wrong(bytes: &[u8]) -> bool
    ensures { result ≡ length_wrong bytes.now }
{
    let length = bytes.len();
    (length < 4) | (261 < length)
}

// GP 11.1.4, the three ranges in its printed order.
pub fn class_right(class: u8) -> bool
    ensures { result ≡ class_right class }
{
    matches!(
        class,
        0x80..=0x8F
            | 0xC0..=0xCF
            | 0xE0..=0xEF
    )
}

pub fn class_wrong(bytes: &[u8]) -> bool
    ensures { result ≡ class_wrong bytes.now }
{
    !class_right(byte_at(bytes, 0))
}

pub fn instruction_wrong(bytes: &[u8]) -> bool
    ensures { result ≡ instruction_wrong bytes.now }
{
    !matches!(
        byte_at(bytes, 1),
        INSTALL | DELETE | STORE_DATA | GET_STATUS | GET_DATA
    )
}

fn parameters_right(instruction: u8, first: u8, second: u8) -> bool
    ensures { result ≡ parameters_right instruction first second }
{
    match (instruction, first, second) {
        (INSTALL, 0x0C, 0x00) => true,
        (DELETE, 0x00, 0x40) => true,
        (STORE_DATA, 0x88..=0x8F, 0x00) => true,
        (GET_STATUS, 0x40, FIRST_ROWS | NEXT_ROWS) => true,
        (GET_DATA, 0xFF, 0x21) => true,
        _ => false,
    }
}

pub fn parameters_wrong(bytes: &[u8]) -> bool
    ensures { result ≡ parameters_wrong bytes.now }
{
    let instruction = byte_at(bytes, 1);
    let first = byte_at(bytes, 2);
    let second = byte_at(bytes, 3);
    !parameters_right(instruction, first, second)
}

// Where the data field starts.
pub const FIELD: usize = 5;

// The place after the data field, as Lc has it.
pub fn data_end(bytes: &[u8]) -> usize
    ensures { result ≡ data_end bytes.now }
{
    let count = byte_at(bytes, 4) as usize;
    FIELD + count
}

pub fn shape_wrong(bytes: &[u8]) -> bool
    ensures { result ≡ shape_wrong bytes.now }
{
    let length = bytes.len();
    let fifth = byte_at(bytes, 4);
    let end = data_end(bytes);
    let after = byte_at(bytes, end);
    let next = end + 1;
    let bare = (length == 5) & (fifth == 0);
    let filled = (fifth != 0) & ((length == end) | ((length == next) & (after == 0)));
    let get_data = byte_at(bytes, 1) == GET_DATA;
    let right = (get_data & bare) | (!get_data & filled);
    !right
}

// The rows before the data field, in the order of the table. Each reader has its own instructions.
#[tactic(auto, unfolding(crate::specs::Rows::framing_by, base_status::specs::Rows::word_of))]
pub fn framing(bytes: &[u8], instruction_wrong: bool) -> Result<(), Status>
    ensures { result ≡ framing_by (length_wrong bytes.now) (class_wrong bytes.now) instruction_wrong (parameters_wrong bytes.now) (shape_wrong bytes.now) }
{
    if length_wrong(bytes) {
        return Err(Status::LengthWrong);
    }
    if class_wrong(bytes) {
        return Err(Status::ClassWrong);
    }
    if instruction_wrong {
        return Err(Status::InstructionWrong);
    }
    if parameters_wrong(bytes) {
        return Err(Status::ParametersWrong);
    }
    if shape_wrong(bytes) {
        return Err(Status::LengthWrong);
    }
    Ok(())
}

// The word of a reader's answer: that of a refusal, `Done` where something was read.
pub fn word<T: Copy>(reading: Result<T, Status>) -> Status
    ensures { result ≡ word_read reading }
{
    reading.err().unwrap_or(Status::Done)
}
