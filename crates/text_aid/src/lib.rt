// An AID as text: the one writer that the card's table, the answers and the month's report share. It stands apart, since `text_words`
// knows of no card, and a card of no text.
#![tactic(auto)]

ghost use Rattle.base_bytes.specs.Put.{Written};
ghost use Rattle.text_aid.specs.AidText.{aid_text};

use base_bytes::Writer;
use card_isdp::Aid;
use text_words::put_hex;

// An AID in hex, with its true length; a length over sixteen takes the whole array.
pub fn put_aid(out: &mut Writer, aid: Aid)
    ensures { Written out.old (aid_text aid) out.new }
{
    put_hex(out, aid.as_slice());
}
