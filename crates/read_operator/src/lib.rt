// Reading a policy update, the one command that an operator's domain is sent (000, 4.1.2.1): from a byte string of any length to the
// policy that it brings, or to the word of its refusal. Whether that policy is legal and who speaks is not asked here.
#![tactic(auto, unfolding(crate::proofs::Opened::reader))]

ghost use Rattle.std.specs.Prelude.{◌≡◌};
ghost use Rattle.read_operator.specs.Field.{policy_at, policy_of};
ghost use Rattle.read_operator.specs.Reading.{not_store_data, update_of};

use base_bytes::byte_at;
use base_status::Status;
use read_elements::Reader;
use read_fields::read_dgi;
use read_frame::{FIELD, STORE_DATA, data_end, framing};

// A DGI, as those of `read_fields`: a command may have one of any value.
const POLICY_UPDATE: u16 = 0x3A06;

fn policy_at(field: Reader<'_>) -> Option<u8>
    ensures { result ≡ policy_at field.entry.bytes.now field.entry.at field.entry.end }
{
    let dgi = read_dgi(field)?;
    let contents = Reader {
        at: dgi.start,
        ..field
    };
    if contents.list_wrong() {
        return None;
    }
    if dgi.number != POLICY_UPDATE {
        return None;
    }
    let policy = contents.last(0x81, 1, 1)?;
    Some(byte_at(field.bytes, policy.start))
}

fn read_policy(bytes: &[u8]) -> Option<u8>
    ensures { result ≡ policy_of bytes.now }
{
    policy_at(Reader::new(bytes, FIELD, data_end(bytes)))
}

fn not_store_data(bytes: &[u8]) -> bool
    ensures { result ≡ not_store_data bytes.now }
{
    byte_at(bytes, 1) != STORE_DATA
}

// The rows before the data field, then what the data field holds.
pub fn read(bytes: &[u8]) -> Result<u8, Status>
    ensures { result ≡ update_of bytes.now }
{
    framing(bytes, not_store_data(bytes))?;
    read_policy(bytes).ok_or(Status::DataWrong)
}
