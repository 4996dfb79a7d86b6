//! The names of findings that are allowed.

ghost use Rattle.std.specs.Prelude.{◌≡◌, ◌<◌, ◌++◌, [], ◌∷◌, length, map, IfNone, IfSome, OnOk};
ghost use Rattle.std.specs.List.{slice_split};
ghost use Rattle.conode_lint.specs.Allowed.{
  first_word,
  is_among,
  is_comma,
  kept,
  kept_of,
  names_after,
  names_allowed,
  names_in,
  names_on,
  passes_by,
  until,
  words_between,
};

use crate::words::name_of;
use co_sheet_text::{same_name, trim};
use co_text::split_at_first;
use conode_lint_marks::Mark;
use std::alloc::AllocError;

/// The beginning of a comment for `lint`.
const LINT: &[u8] = b"lint:";

/// What allows findings of the names after it.
const ALLOW: &[u8] = b"allow ";

// what is before the first of a byte, or all
fn until(byte: u8, text: &[u8]) -> &[u8]
    ensures { result.now ≡ until byte text.now }
{
    match split_at_first(text, byte) {
        Some((front, _)) => front,
        None => text,
    }
}

fn first_word(text: &[u8]) -> &[u8]
    ensures { result.now ≡ first_word text.now }
{
    until(b'\t', until(b' ', trim(text)))
}

fn is_comma(byte: u8) -> bool
    ensures { result ≡ is_comma byte }
{
    byte == b','
}

// what is before and after the first comma; `None` where there is none
fn split_name(text: &[u8]) -> Option<(&[u8], &[u8])>
    ensures none { IfNone result (slice_split is_comma text.now ≡ text.now ∷ []) }
    ensures some { IfSome result (λ parts. slice_split is_comma text.now
        ≡ parts.0.now ∷ slice_split is_comma parts.1.now) }
    ensures shorter { IfSome result (λ parts. length parts.1.now < length text.now) }
{
    for (place, byte) in text.iter().enumerate() {
        if is_comma(*byte) {
            return Some((&text[..place], &text[place + 1..]));
        }
    }
    None
}

// adds the first words between commas
fn add_words<'a>(names: &mut Vec<&'a [u8]>, text: &'a [u8]) -> Result<(), AllocError>
    ensures { OnOk result (map (λ name. name.now) names.new.items
        ≡ map (λ name. name.now) names.old.items ++ words_between text.now) }
{
    let mut rest = text;
    while let Some((part, after)) = split_name(rest) {
        attempt_in_memory!(names.push(first_word(part)));
        rest = after;
    }
    attempt_in_memory!(names.push(first_word(rest)));
    Ok(())
}

// adds the names after `allow`
#[tactic(auto, unfolding(crate::specs::Allowed::names_after))]
fn add_names_after<'a>(names: &mut Vec<&'a [u8]>, text: &'a [u8]) -> Result<(), AllocError>
    ensures { OnOk result (map (λ name. name.now) names.new.items
        ≡ map (λ name. name.now) names.old.items ++ names_after text.now) }
{
    if text.len() < 6 {
        return Ok(());
    }
    let (words, list) = text.split_at(6);
    if same_name(words, ALLOW) {
        add_words(names, list)
    } else {
        Ok(())
    }
}

// adds the names that a comment allows
#[tactic(auto, unfolding(crate::specs::Allowed::names_allowed))]
fn add_allowed<'a>(names: &mut Vec<&'a [u8]>, comment: &'a [u8]) -> Result<(), AllocError>
    ensures { OnOk result (map (λ name. name.now) names.new.items
        ≡ map (λ name. name.now) names.old.items ++ names_allowed comment.now) }
{
    if comment.len() < 5 {
        return Ok(());
    }
    let (words, rest) = comment.split_at(5);
    if same_name(words, LINT) {
        add_names_after(names, trim(rest))
    } else {
        Ok(())
    }
}

// adds the names that a line allows, as `; lint: allow Unlisted, BadList`; blanks after `;` and `:`
// may be left out, and the words are in any case of letters
#[tactic(auto, unfolding(crate::specs::Allowed::names_on))]
fn add_names_on<'a>(names: &mut Vec<&'a [u8]>, line: &'a [u8]) -> Result<(), AllocError>
    ensures { OnOk result (map (λ name. name.now) names.new.items
        ≡ map (λ name. name.now) names.old.items ++ names_on line.now) }
{
    match trim(line) {
        [b';', comment @ ..] => add_allowed(names, trim(comment)),
        _ => Ok(()),
    }
}

/// Adds the names that the lines of a sheet allow to none. `Err`: out of memory.
pub(crate) fn add_names<'a>(names: &mut Vec<&'a [u8]>, lines: &[&'a [u8]]) -> Result<(), AllocError>
    requires { names.old.items ≡ [] }
    ensures { OnOk result (map (λ name. name.now) names.new.items
        ≡ names_in (map (λ line. line.now) lines.now)) }
{
    for line in lines {
        attempt!(add_names_on(names, line));
    }
    Ok(())
}

fn is_among(name: &[u8], names: &[&[u8]]) -> bool
    ensures { result ≡ is_among name.now (map (λ one. one.now) names.now) }
{
    for one in names {
        if *one == name {
            return true;
        }
    }
    false
}

fn is_given(name: &str, names: &[&str]) -> bool
    ensures { result ≡ is_among name.now (map (λ one. one.now) names.now) }
{
    for one in names {
        if *one == name {
            return true;
        }
    }
    false
}

#[tactic(auto, unfolding(crate::specs::Allowed::passes_by))]
fn passes(name: &str, given: &[&str], in_sheet: &[&[u8]]) -> bool
    ensures { result ≡ passes_by (map (λ one. one.now) given.now)
        (map (λ one. one.now) in_sheet.now) name.now }
{
    is_given(name, given) || is_among(name.as_bytes(), in_sheet)
}

// adds a mark that neither the command line nor the sheet allows
fn add_if_kept(
    left: &mut Vec<Mark>,
    mark: Mark,
    given: &[&str],
    in_sheet: &[&[u8]],
) -> Result<(), AllocError>
    ensures { OnOk result (left.new.items ≡ left.old.items
        ++ kept_of (passes_by (map (λ one. one.now) given.now) (map (λ one. one.now) in_sheet.now))
        mark) }
{
    if passes(name_of(mark.subject), given, in_sheet) {
        return Ok(());
    }
    attempt_in_memory!(left.push(mark));
    Ok(())
}

/// Adds the marks that neither the command line nor the sheet allows to none. `Err`: out of memory.
pub(crate) fn add_kept(
    left: &mut Vec<Mark>,
    marks: &[Mark],
    given: &[&str],
    in_sheet: &[&[u8]],
) -> Result<(), AllocError>
    requires { left.old.items ≡ [] }
    ensures { OnOk result (left.new.items
        ≡ kept (passes_by (map (λ one. one.now) given.now) (map (λ one. one.now) in_sheet.now))
        marks.now) }
{
    for mark in marks {
        attempt!(add_if_kept(left, *mark, given, in_sheet));
    }
    Ok(())
}
