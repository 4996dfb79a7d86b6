//! The values in the text of a finding. Each function appends a text. `Err`: out of memory; a part
//! of it may be there.

ghost use Rattle.std.specs.Prelude.{◌≡◌, ◌++◌, ℕ, List, OnOk, string_bytes};
ghost use Rattle.conode_lint_text.specs.TextForm.{
  counted,
  left_out_text,
  piece_text,
  position_text,
  quoted_text,
};

use crate::characters::push_all_shown;
use crate::finding::{Finding, Severity};
use crate::words::{push_help, push_message, severity_name};
use co_text::push_decimal;
use conode_text::{HasText, Value, push_filled};
use std::alloc::AllocError;

/// A value in a text.
#[derive(Clone, Copy)]
pub(crate) enum Piece<'a> {
    Words(&'a str),
    /// What begins or ends a colour, nothing without colours.
    Colour(bool, &'a str),
    /// Characters, as they are shown.
    Shown(&'a [char]),
    /// A number in decimal digits.
    Number(usize),
    /// A line and a column, nothing for line 0.
    Position(usize, usize),
    /// The line with this number, from its characters; nothing for line 0.
    Quoted(usize, &'a [char]),
    /// A number of things, as `2 errors`.
    Counted(usize, &'a str),
    Severity(Severity),
    /// What is wrong.
    Message(&'a Finding<'a>),
    /// How to fix it, and the subject of the standard.
    Help(&'a str, &'a str),
    /// How many findings aren't listed, in words.
    LeftOut(usize),
}

#[tactic(auto, unfolding(crate::specs::TextForm::position_text))]
fn push_position(text: &mut String, line: usize, column: usize) -> Result<(), AllocError>
    ensures { OnOk result
        (string_bytes text.new ≡ string_bytes text.old ++ position_text line column) }
{
    if line == 0 {
        return Ok(());
    }
    push_filled(
        text,
        "%:%:",
        &[Value::Number(line as u64), Value::Number(column as u64)],
    )
}

fn push_quoted(text: &mut String, line: usize, characters: &[char]) -> Result<(), AllocError>
    ensures { OnOk result (string_bytes text.new
        ≡ string_bytes text.old ++ quoted_text line characters.now) }
{
    if line == 0 {
        return Ok(());
    }
    attempt!(text.push_str("    "));
    attempt!(push_all_shown(text, characters));
    text.push('\n')
}

#[tactic(auto, unfolding(crate::specs::TextForm::counted))]
fn push_counted(text: &mut String, count: usize, thing: &str) -> Result<(), AllocError>
    ensures { OnOk result
        (string_bytes text.new ≡ string_bytes text.old ++ counted count thing.now) }
{
    let number = Value::Number(count as u64);
    if count == 1 {
        push_filled(text, "% %", &[number, Value::Words(thing)])
    } else {
        push_filled(text, "% %s", &[number, Value::Words(thing)])
    }
}

#[tactic(auto, unfolding(crate::specs::TextForm::left_out_text))]
fn push_left_out(text: &mut String, more: usize) -> Result<(), AllocError>
    ensures { OnOk result
        (string_bytes text.new ≡ string_bytes text.old ++ left_out_text more) }
{
    push_filled(
        text,
        "findings that aren't among the results: %",
        &[Value::Number(more as u64)],
    )
}

impl HasText for Piece<'_> {
    ghost text_of = { piece_text };

    fn push(&self, text: &mut String) -> Result<(), AllocError> {
        match *self {
            Piece::Words(words) | Piece::Colour(true, words) => text.push_str(words),
            Piece::Colour(false, _) => Ok(()),
            Piece::Shown(characters) => push_all_shown(text, characters),
            Piece::Number(number) => push_decimal(text, number as u64),
            Piece::Position(line, column) => push_position(text, line, column),
            Piece::Quoted(line, characters) => push_quoted(text, line, characters),
            Piece::Counted(number, thing) => push_counted(text, number, thing),
            Piece::Severity(severity) => text.push_str(severity_name(severity)),
            Piece::Message(finding) => push_message(text, finding),
            Piece::Help(fix, subject) => push_help(text, fix, subject),
            Piece::LeftOut(more) => push_left_out(text, more),
        }
    }
}
