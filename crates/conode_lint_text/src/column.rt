//! The column of a finding.

ghost use Rattle.std.specs.Prelude.{◌≡◌, ◌==◌, ◌≤◌, length, IfOk};
ghost use Rattle.std.specs.List.{position_or_len};
ghost use Rattle.co_text.specs.Texts.{is_blank};
ghost use Rattle.conode_json.specs.Characters.{characters_of};
ghost use Rattle.conode_lint_text.specs.Characters.{blanks};
ghost use Rattle.conode_lint_text.specs.Findings.{column_of, place_in, value_place};

use crate::finding::{Finding, Place};
use conode_json::characters_of;
use std::alloc::{AllocError, Global};

fn is_blank(character: char) -> bool
    ensures { result ≡ is_blank character }
{
    character == ' ' || character == '\t'
}

// how many blanks are at the front
fn blanks(characters: &[char]) -> usize
    ensures count { result ≡ blanks characters.now }
    ensures within { result ≤ length characters.now }
{
    for (count, character) in characters.iter().enumerate() {
        if !is_blank(*character) {
            return count;
        }
    }
    characters.len()
}

fn is_equals(character: char) -> bool
    ensures { result ≡ (character == 61) }
{
    character == '='
}

// how many characters are before the first `=`; all if there is none
fn before_equals(characters: &[char]) -> usize
    ensures count { result ≡ position_or_len (λ c. c == 61) characters.now }
    ensures within { result ≤ length characters.now }
{
    for (count, character) in characters.iter().enumerate() {
        if is_equals(*character) {
            return count;
        }
    }
    characters.len()
}

// how many characters are before the value
fn value_place(characters: &[char]) -> usize
    ensures count { result ≡ value_place characters.now }
    ensures within { result ≤ length characters.now }
{
    let equals = before_equals(characters);
    if equals < characters.len() {
        equals + 1 + blanks(&characters[equals + 1..])
    } else {
        blanks(characters)
    }
}

/// The column of a finding whose line has these characters, from 1; 0 if it has no line.
#[tactic(auto, unfolding(crate::specs::Findings::column_of, crate::specs::Findings::place_in))]
pub(crate) fn column_of(finding: &Finding<'_>, characters: &[char]) -> usize
    requires { characters.now ≡ characters_of finding.now.text.now }
    ensures { result ≡ column_of finding.now }
{
    if finding.line == 0 {
        return 0;
    }
    let before = match finding.place {
        Place::Beginning => blanks(characters),
        Place::Value => value_place(characters),
    };
    before + 1
}

/// The column of a finding, from 1; 0 if it has no line. `Err`: out of memory.
pub(crate) fn own_column(alloc: Global, finding: &Finding<'_>) -> Result<usize, AllocError>
    ensures { IfOk result (λ column. column ≡ column_of finding.now) }
{
    match characters_of(alloc, finding.text) {
        Ok(characters) => Ok(column_of(finding, characters.as_slice())),
        Err(fault) => Err(fault),
    }
}
