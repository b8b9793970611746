// Columns: spaces, and a number at the right of a column of seven. What does not fit is dropped, as in `writing`.
ghost use Rattle.std.specs.Prelude.{◌≡◌};
ghost use Rattle.base_bytes.specs.Put.{Written};
ghost use Rattle.text_words.specs.Columns.{spaces, lead_of, column_text};

use crate::writing::put_decimal;
use base_bytes::Writer;

pub fn put_spaces(out: &mut Writer, count: usize)
    ensures { Written out.old (spaces count) out.new }
{
    for _ in 0..count {
        out.byte(b' ');
    }
}

// The spaces before a number in a column of seven.
#[tactic(auto, unfolding(crate::specs::Columns::lead_of, base_choice::specs::Choice::pick, base_choice::specs::Choice::is_below))]
fn lead(n: u64) -> usize
    ensures { result ≡ lead_of n }
{
    match n {
        0..=9 => 6,
        10..=99 => 5,
        100..=999 => 4,
        1000..=9999 => 3,
        10000..=99999 => 2,
        100000..=999999 => 1,
        _ => 0,
    }
}

pub fn put_column(out: &mut Writer, n: u64)
    ensures { Written out.old (column_text n) out.new }
{
    put_spaces(out, lead(n));
    put_decimal(out, n);
}
