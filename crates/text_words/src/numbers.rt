// Decimal numbers, read from digits.
ghost use Rattle.std.specs.Prelude.{◌≡◌, ◌≤◌, IfSome};
ghost use Rattle.text_words.specs.Numbers.{decimal_of};

// The number that a text of digits spells, at least one digit, where it is at most `most`. Zeros may stand in front.
pub fn decimal(s: &[u8], most: u32) -> Option<u32>
    ensures value { result ≡ decimal_of most s.now }
    ensures within { IfSome result (λ n. n ≤ most) }
{
    if s.is_empty() {
        return None;
    }
    let mut value: u64 = 0;
    for c in s {
        if *c < b'0' || b'9' < *c {
            return None;
        }
        value = value * 10 + (*c - b'0') as u64;
        if (most as u64) < value {
            return None;
        }
    }
    Some(value as u32)
}
