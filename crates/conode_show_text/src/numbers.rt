//! Numbers in both bases.

ghost use Rattle.std.specs.Prelude.{
  ◌≡◌,
  ◌≤◌,
  ◌*◌,
  ◌^◌,
  ◌++◌,
  [],
  codes,
  if◌then◌else◌,
  pos,
};
ghost use Rattle.std.specs.Fmt.{signed_decimal};
ghost use Rattle.co_value.specs.Numbers.{bits_of};
ghost use Rattle.conode_show_text.specs.Numbers.{
  if_small,
  is_below,
  is_one_digit,
  is_plain,
  number_text,
};
ghost use Rattle.conode_show_text.specs.Phrases.{phrase_text};
ghost use Rattle.conode_show_text.specs.Values.{addend_text};

use crate::phrase::{Phrase, Piece, alone};

/// These words if a test holds, else none.
pub(crate) fn words_if(holds: bool, words: &'static str) -> &'static str
    ensures { result.now ≡ (if holds then words.now else []) }
{
    if holds { words } else { "" }
}

// 2 ^ bits
fn power_of_two(bits: usize) -> i128
    requires { bits ≤ 64 }
    ensures { result ≡ pos (2 ^ bits) }
{
    (1u128 << bits) as i128
}

// the bits of a number, if 64 are enough; a negative one is in two's complement
fn small_bits(width: usize, number: i128) -> Option<u64>
    requires { width ≤ 8 }
    ensures { result ≡ if_small (bits_of (8 * width) number) }
{
    let bits = if number < 0 {
        number + power_of_two(8 * width)
    } else {
        number
    };
    if bits < 0 {
        return Some(0);
    }
    if bits > u64::MAX as i128 {
        return None;
    }
    Some(bits as u64)
}

fn is_one_digit(number: i128) -> bool
    ensures { result ≡ is_one_digit number }
{
    0 <= number && number < 10
}

// whether it is below the least number of a signed type of this width
fn is_below(width: usize, number: i128) -> bool
    requires { width ≤ 8 }
    ensures { result ≡ is_below (8 * width) number }
{
    number < -(power_of_two(8 * width) / 2)
}

// whether it is in decimal alone
fn is_plain(width: usize, number: i128) -> bool
    requires { width ≤ 8 }
    ensures { result ≡ is_plain (8 * width) number }
{
    is_one_digit(number) || is_below(width, number)
}

/// A number of a type of `width` bytes: in decimal, and in hexadecimal digits if these differ.
#[tactic(auto, unfolding(crate::specs::Numbers::number_text, crate::specs::Numbers::in_parentheses, conode_text::specs::Filled::filled))]
pub(crate) fn number_of(width: usize, number: i128) -> Phrase<'static>
    requires { width ≤ 8 }
    ensures { phrase_text result ≡ number_text width number }
{
    if is_plain(width, number) {
        return alone(Piece::Signed(number));
    }
    match small_bits(width, number) {
        Some(bits) => Phrase {
            words: "% (%)",
            first: Piece::Signed(number),
            second: Piece::Hexadecimal(bits),
            third: Piece::Nothing,
            fourth: Piece::Nothing,
        },
        None => alone(Piece::Signed(number)),
    }
}

// a sum and its value in decimal
#[tactic(auto, unfolding(conode_text::specs::Filled::filled))]
fn sum_alone(addend: u64, number: i128) -> Phrase<'static>
    ensures { phrase_text result
        ≡ addend_text addend ++ codes " = " ++ signed_decimal number }
{
    Phrase {
        words: "% = %",
        first: Piece::Sum(addend),
        second: Piece::Signed(number),
        third: Piece::Nothing,
        fourth: Piece::Nothing,
    }
}

/// A sum with the node-ID as it is written, and its value in a type of `width` bytes as `number_of`
/// prints it.
#[tactic(auto, unfolding(crate::specs::Numbers::number_text, crate::specs::Numbers::in_parentheses, conode_text::specs::Filled::filled))]
pub(crate) fn sum_of(width: usize, addend: u64, number: i128) -> Phrase<'static>
    requires { width ≤ 8 }
    ensures { phrase_text result
        ≡ addend_text addend ++ codes " = " ++ number_text width number }
{
    if is_plain(width, number) {
        return sum_alone(addend, number);
    }
    match small_bits(width, number) {
        Some(bits) => Phrase {
            words: "% = % (%)",
            first: Piece::Sum(addend),
            second: Piece::Signed(number),
            third: Piece::Hexadecimal(bits),
            fourth: Piece::Nothing,
        },
        None => sum_alone(addend, number),
    }
}
