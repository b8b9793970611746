// What a command asks for. An AID is handed on as its place in the command.
use base_bytes::Part;
use card_isdp::Tags;

#[derive(Clone, Copy)]
pub enum Request {
    Create { aid: Part, quota: u32 },
    Enable(Part),
    Disable(Part),
    SetFallBack(Part),
    Delete(Part),
    MasterDelete(Part),
    Confirm(u16),
    // The rows of all profiles, and of the one named: with which of the two optional tags. Only a listing of all comes in parts, so
    // only it can go on from the kept place.
    GetStatusOfAll { next: bool, tags: Tags },
    GetStatusOfOne { aid: Part, tags: Tags },
    GetData,
}
