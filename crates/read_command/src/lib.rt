// Reading a command: from a byte string of any length to a request, or to the word of its refusal.
#![tactic(auto, unfolding(crate::proofs::Opened::reader))]

ghost use Rattle.std.specs.Prelude.{◌≡◌};
ghost use Rattle.read_command.specs.Requests.{field_of};
ghost use Rattle.read_command.specs.Reading.{read_of};

use base_bytes::byte_at;
use base_status::Status;
use read_elements::Reader;
pub use read_fields::{Request, Tags};
use read_fields::{read_deletion, read_listing, read_store_data};
use read_frame::{
    DELETE, FIELD, GET_STATUS, INSTALL, NEXT_ROWS, STORE_DATA, data_end, framing, instruction_wrong,
};
use read_install::read_install;

// What is left of the instructions is GET DATA, which has no data field.
fn read_field(bytes: &[u8], capacity: u32) -> Option<Request>
    ensures { result ≡ field_of bytes.now capacity }
{
    let field = Reader::new(bytes, FIELD, data_end(bytes));
    match byte_at(bytes, 1) {
        INSTALL => read_install(field, capacity),
        DELETE => read_deletion(field),
        STORE_DATA => read_store_data(field),
        GET_STATUS => read_listing(byte_at(bytes, 3) == NEXT_ROWS, field),
        _ => Some(Request::GetData),
    }
}

// The rows before the data field, then what the data field makes.
pub fn read(bytes: &[u8], capacity: u32) -> Result<Request, Status>
    ensures { result ≡ read_of bytes.now capacity }
{
    framing(bytes, instruction_wrong(bytes))?;
    read_field(bytes, capacity).ok_or(Status::DataWrong)
}
