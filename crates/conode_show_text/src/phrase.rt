//! Words with values in them. Each function with a text appends to it. `Err`: out of memory; a part
//! of the text may be there.

ghost use Rattle.std.specs.Prelude.{◌≡◌, ◌++◌, ℕ, [], ◌∷◌, List, OnOk, codes, decimal, string_bytes};
ghost use Rattle.std.specs.Fmt.{signed_decimal};
ghost use Rattle.conode_text.specs.Filled.{filled};
ghost use Rattle.conode_show_text.specs.Numbers.{hex_text};
ghost use Rattle.conode_show_text.specs.Phrases.{phrase_text, piece_text};
ghost use Rattle.conode_show_text.specs.Values.{addend_text};

use crate::texts::push_plain;
use co_text::push_decimal;
use co_value::Key;
use conode_text::{HasText, push_filled};
use std::alloc::AllocError;

/// A value in words.
#[derive(Clone, Copy)]
pub(crate) enum Piece<'p> {
    Nothing,
    /// Words of the program.
    Words(&'static str),
    /// A number in decimal digits.
    Number(u64),
    /// The same, with its sign.
    Signed(i128),
    /// A number in hexadecimal digits, as many as it needs, with `h`.
    Hexadecimal(u64),
    /// A sum of the node-ID and a number, as it is written.
    Sum(u64),
    Key(Key),
    /// The code of a data type without a name.
    TypeCode(u64),
    /// A text of the sheet.
    Plain(&'p [u8]),
}

fn push_signed(text: &mut String, number: i128) -> Result<(), AllocError>
    ensures { OnOk result
        (string_bytes text.new ≡ string_bytes text.old ++ signed_decimal number) }
{
    write!(text, "{number}")
}

#[tactic(auto, unfolding(crate::specs::Numbers::hex_text))]
fn push_hexadecimal(text: &mut String, number: u64) -> Result<(), AllocError>
    ensures { OnOk result (string_bytes text.new ≡ string_bytes text.old ++ hex_text number) }
{
    write!(text, "{number:X}h")
}

fn push_sum(text: &mut String, addend: u64) -> Result<(), AllocError>
    ensures { OnOk result (string_bytes text.new ≡ string_bytes text.old ++ addend_text addend) }
{
    if addend == 0 {
        return text.push_str("$NODEID");
    }
    attempt!(text.push_str("$NODEID+"));
    push_hexadecimal(text, addend)
}

#[tactic(auto, unfolding(crate::specs::Numbers::hex_text))]
fn push_type_code(text: &mut String, code: u64) -> Result<(), AllocError>
    ensures { OnOk result (string_bytes text.new
        ≡ string_bytes text.old ++ codes "type " ++ hex_text code) }
{
    write!(text, "type {code:X}h")
}

impl HasText for Piece<'_> {
    ghost text_of = { piece_text };

    fn push(&self, text: &mut String) -> Result<(), AllocError> {
        match *self {
            Piece::Nothing => Ok(()),
            Piece::Words(words) => text.push_str(words),
            Piece::Number(number) => push_decimal(text, number),
            Piece::Signed(number) => push_signed(text, number),
            Piece::Hexadecimal(number) => push_hexadecimal(text, number),
            Piece::Sum(addend) => push_sum(text, addend),
            Piece::Key(key) => text.push_str(key.text().as_str()),
            Piece::TypeCode(code) => push_type_code(text, code),
            Piece::Plain(bytes) => push_plain(text, bytes),
        }
    }
}

/// Words of the program, with a value at each percent sign, one after another; those past the last
/// place aren't written.
#[derive(Clone, Copy)]
pub(crate) struct Phrase<'p> {
    pub(crate) words: &'static str,
    pub(crate) first: Piece<'p>,
    pub(crate) second: Piece<'p>,
    pub(crate) third: Piece<'p>,
    pub(crate) fourth: Piece<'p>,
}

/// Words with one value.
pub(crate) fn with_one<'p>(words: &'static str, first: Piece<'p>) -> Phrase<'p>
    ensures { phrase_text result ≡ filled words.now (piece_text first.entry ∷ [] ∷ [] ∷ [] ∷ []) }
{
    let none: Piece<'p> = Piece::Nothing;
    Phrase {
        words,
        first,
        second: none,
        third: none,
        fourth: none,
    }
}

/// A value alone.
#[tactic(auto, unfolding(conode_text::specs::Filled::filled))]
pub(crate) fn alone<'p>(piece: Piece<'p>) -> Phrase<'p>
    ensures { phrase_text result ≡ piece_text piece.entry }
{
    with_one("%", piece)
}

/// Words with one number.
#[tactic(auto, unfolding(conode_text::specs::Filled::filled))]
pub(crate) fn with_number(words: &'static str, number: u64) -> Phrase<'static>
    ensures { phrase_text result ≡ filled words.now (decimal number ∷ [] ∷ [] ∷ [] ∷ []) }
{
    with_one(words, Piece::Number(number))
}

/// Appends a phrase.
pub(crate) fn push_phrase(text: &mut String, phrase: &Phrase<'_>) -> Result<(), AllocError>
    ensures { OnOk result
        (string_bytes text.new ≡ string_bytes text.old ++ phrase_text phrase.now) }
{
    push_filled(
        text,
        phrase.words,
        &[phrase.first, phrase.second, phrase.third, phrase.fourth],
    )
}
