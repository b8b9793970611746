// Words of a line, parted by spaces, and fields of a word, parted by one byte.
ghost use Rattle.std.specs.Prelude.{◌≡◌, ◌==◌, ◌≤◌, ◌<◌, ◌+◌, not, length, drop, take_while, IfSome};
ghost use Rattle.text_words.specs.Words.{before, leading, word_at, field_at, words_of};

// What stands from a place on: nothing past the end.
fn rest(s: &[u8], at: usize) -> &[u8]
    ensures { result.now ≡ drop at s.now }
{
    if at < s.len() { &s[at..] } else { &[] }
}

// How many bytes stand before the first b.
fn before(s: &[u8], b: u8) -> usize
    ensures within { result ≤ length s.now }
    ensures counts { result ≡ length (take_while (λ c. not (c == b)) s.now) }
{
    s.iter().take_while(|c| **c != b).count()
}

// How many b stand at the front.
fn leading(s: &[u8], b: u8) -> usize
    ensures within { result ≤ length s.now }
    ensures counts { result ≡ length (take_while (λ c. c == b) s.now) }
{
    s.iter().take_while(|c| **c == b).count()
}

// The first place from `at` on that holds b, or the end.
#[tactic(auto, using(crate::proofs::WordLaws::before_taken))]
pub fn until(s: &[u8], at: usize, b: u8) -> usize
    ensures { result ≡ at + before b (drop at s.now) }
{
    at + before(rest(s, at), b)
}

// The first place from `at` on that does not hold b, or the end.
#[tactic(auto, using(crate::proofs::WordLaws::leading_taken))]
pub fn past(s: &[u8], at: usize, b: u8) -> usize
    ensures { result ≡ at + leading b (drop at s.now) }
{
    at + leading(rest(s, at), b)
}

// A word or a field is told by its place: `from` up to, and without, `to`.
#[derive(Clone, Copy)]
pub struct Span {
    pub from: usize,
    pub to: usize,
}

// The next word from a place on.
pub fn next_word(s: &[u8], at: usize) -> Option<Span>
    ensures value { result ≡ word_at s.now at }
    ensures inside { IfSome result (λ w. (w.from < w.to) × (w.to ≤ length s.now)) }
{
    let from = past(s, at, b' ');
    if s.len() <= from {
        return None;
    }
    let to = until(s, from, b' ');
    Some(Span { from, to })
}

// The field that starts at a place and ends before the next `by`. The field after it starts one past its end.
pub fn next_field(s: &[u8], at: usize, by: u8) -> Option<Span>
    ensures value { result ≡ field_at by s.now at }
    ensures inside { IfSome result (λ w. (w.from ≤ w.to) × (w.to ≤ length s.now)) }
{
    if s.len() < at {
        return None;
    }
    let to = until(s, at, by);
    Some(Span { from: at, to })
}

// How many words a line has.
pub fn count_words(s: &[u8]) -> usize
    ensures { result ≡ length (words_of s.now) }
{
    let mut count = 0;
    let mut at = 0;
    // No `for`: where the next word begins is known when this one is read.
    while let Some(word) = next_word(s, at) {
        at = word.to;
        count += 1;
    }
    count
}
