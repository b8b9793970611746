// The cells of the table: each as wide as its column, so that the rows stand under each other.
ghost use Rattle.std.specs.Prelude.{◌≡◌, ◌≤◌, length};
ghost use Rattle.base_bytes.specs.Put.{Written};
ghost use Rattle.card_isdp.specs.Aids.{aid_of};
ghost use Rattle.script_table.specs.Profiles.{state_text, yes_text, provisioning_text, policy_text};

use base_bytes::Writer;
use card_isdp::Isdp;
use text_words::{put_hex_8, put_spaces};

#[tactic(auto, unfolding(crate::specs::Profiles::state_text, base_choice::specs::Choice::pick, base_choice::specs::Choice::is_same))]
pub fn put_state(out: &mut Writer, life: u8)
    ensures { Written out.old (state_text life) out.new }
{
    match life {
        Isdp::SELECTABLE => out.bytes(b"SELECTABLE  "),
        Isdp::PERSONALIZED => out.bytes(b"PERSONALIZED"),
        Isdp::DISABLED => out.bytes(b"DISABLED    "),
        Isdp::ENABLED => out.bytes(b"ENABLED     "),
        _ => {
            put_hex_8(out, life);
            out.bytes(b"          ");
        }
    }
}

// `yes` or nothing, and so many spaces after it.
#[tactic(auto, unfolding(crate::specs::Profiles::yes_text, base_choice::specs::Choice::pick))]
pub fn put_yes(out: &mut Writer, told: bool, rest: usize)
    ensures { Written out.old (yes_text told rest) out.new }
{
    out.bytes(if told { b"yes" } else { b"   " });
    put_spaces(out, rest);
}

pub fn put_provisioning(out: &mut Writer, mark: u8)
    ensures { Written out.old (provisioning_text mark) out.new }
{
    if mark > 1 {
        put_hex_8(out, mark);
        put_spaces(out, 10);
    } else {
        put_yes(out, mark == 1, 9);
    }
}

#[tactic(auto, unfolding(crate::specs::Profiles::policy_text, base_choice::specs::Choice::pick, base_choice::specs::Choice::is_same))]
pub fn put_policy(out: &mut Writer, policy: u8)
    ensures { Written out.old (policy_text policy) out.new }
{
    match policy {
        0 => out.bytes(b"none"),
        1 => out.bytes(b"disabling forbidden"),
        2 => out.bytes(b"deletion forbidden"),
        3 => out.bytes(b"disabling and deletion forbidden"),
        4 => out.bytes(b"deleted once disabled"),
        _ => put_hex_8(out, policy),
    }
}

// The bytes of a place's AID, sixteen at the most.
pub fn aid_size(p: &Isdp) -> u8
    ensures { (result ≡ length (aid_of p.now)) × (result ≤ 16) }
{
    p.aid.size() as u8
}
