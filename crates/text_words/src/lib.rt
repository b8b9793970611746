// Text in bytes: the words of a line, the numbers and byte strings that they spell, and the same written into a lent buffer, also in
// columns.
// Every function is total, and its contract gives its whole answer and what it leaves in the buffer.
#![tactic(auto)]

mod columns;
mod hex;
mod numbers;
mod words;
mod writing;

pub use columns::{put_column, put_spaces};
pub use hex::{HexError, hex_byte, is_hex, read_hex, spell_hex};
pub use numbers::decimal;
pub use words::{Span, count_words, next_field, next_word, past, until};
pub use writing::{put_decimal, put_hex, put_hex_8, put_hex_16, put_hex_word};
