//! Text cut, read and printed: the first of a kind of byte, lines, decimal and hexadecimal digits.
#![tactic(auto)]

mod blank;
mod cut;
mod decimal;
mod digits;
mod hex_digits;
mod hex_pairs;
mod lines;

pub use blank::is_blank;
pub use cut::split_at_first;
pub use decimal::{decimal_digits, decimal_in, is_digit, push_decimal};
pub use digits::{byte_digits, push_byte, push_bytes, push_digit, push_u16, push_u32, word_digits};
pub use hex_digits::hex_digit;
pub use hex_pairs::{HexPairs, byte_in, five_bytes_in, pair_at, word_in};
pub use lines::split_line;
