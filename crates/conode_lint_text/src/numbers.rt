//! What a sheet has where a number is at fault: how many sub-indices, which is the highest, how many
//! PDOs, and the numbers of the identity object.

ghost use Rattle.std.specs.Prelude.{◌≡◌, map};
ghost use Rattle.co_sheet_text.specs.Views.{section_view};
ghost use Rattle.conode_lint_text.specs.Facts.{
  highest_fact,
  highest_of,
  identity_at,
  identity_number,
  initial_number,
  is_decimal_name,
  is_sub_index_of,
  no_pdo_fact,
  pdo_count,
  pdo_fact,
  sub_index_0,
  sub_index_0_of,
  sub_index_count,
  sub_index_in,
  sub_number,
  sub_number_of,
};

use crate::fact::Fact;
use crate::facts::section_before;
use crate::finding::About;
use crate::line_facts::{key_name, key_number};
use co_sheet::section_at;
use co_sheet_text::{SectionKind, TextSection, same_name};
use co_sheet_text_warnings::object_count;
use co_sheet_warnings::value_in;
use co_value::Key;

fn is_sub_index_of(index: u16, kind: SectionKind) -> bool
    ensures { result ≡ is_sub_index_of index kind }
{
    match kind {
        SectionKind::SubIndex(key) => key.index == index,
        _ => false,
    }
}

// the number of an object's sub-index sections
fn sub_index_count(index: u16, sections: &[TextSection<'_, '_>]) -> usize
    ensures { result ≡ sub_index_count index (map section_view sections.now) }
{
    let mut count = 0;
    for section in sections {
        if is_sub_index_of(index, section.kind) {
            count += 1;
        }
    }
    count
}

fn sub_number_of(sections: &[TextSection<'_, '_>], number: Option<u64>, kind: SectionKind) -> About
    ensures { result ≡ sub_number_of (map section_view sections.now) number kind }
{
    let SectionKind::Object(index) = kind else {
        return About::Line;
    };
    let has = sub_index_count(index, sections);
    match number {
        Some(number) => About::Fact(Fact::SubNumber(number, has)),
        None => About::Fact(Fact::NoSubNumber(has)),
    }
}

/// Of the SubNumber of a line: its number, and the number of sub-index sections.
pub fn sub_number(sections: &[TextSection<'_, '_>], line: usize, text: &[u8]) -> About
    ensures { result ≡ sub_number line (map section_view sections.now) text.now }
{
    match section_before(sections, line) {
        Some(section) => sub_number_of(sections, key_number(text), section.kind),
        None => About::Line,
    }
}

// the sub-index of an object that a section describes; 0 if there is none
fn sub_index_in(index: u16, kind: SectionKind) -> u8
    ensures { result ≡ sub_index_in index kind }
{
    match kind {
        SectionKind::SubIndex(key) if key.index == index && key.sub < 0xFF => key.sub,
        _ => 0,
    }
}

// the highest sub-index of an object
fn highest_of(index: u16, sections: &[TextSection<'_, '_>]) -> u8
    ensures { result ≡ highest_of index (map section_view sections.now) }
{
    let mut highest = 0;
    for section in sections {
        highest = sub_index_in(index, section.kind).max(highest);
    }
    highest
}

// whether the hexadecimal digits of the highest sub-index are the number in decimal
fn is_decimal_name(number: u64, highest: u8) -> bool
    ensures { result ≡ is_decimal_name number highest }
{
    0x10 <= highest
        && highest / 16 < 10
        && highest % 16 < 10
        && (highest / 16 * 10 + highest % 16) as u64 == number
}

fn highest_fact(number: u64, highest: u8) -> About
    ensures { result ≡ highest_fact number highest }
{
    if is_decimal_name(number, highest) {
        return About::Fact(Fact::DecimalName(number, highest));
    }
    About::Fact(Fact::SubIndex0(number, highest))
}

fn sub_index_0_of(sections: &[TextSection<'_, '_>], number: Option<u64>, kind: SectionKind) -> About
    ensures { result ≡ sub_index_0_of (map section_view sections.now) number kind }
{
    match (number, kind) {
        (Some(number), SectionKind::SubIndex(key)) => {
            highest_fact(number, highest_of(key.index, sections))
        }
        _ => About::Line,
    }
}

/// Of the SubIndex0 of a line: its number, and the highest sub-index.
pub fn sub_index_0(sections: &[TextSection<'_, '_>], line: usize, text: &[u8]) -> About
    ensures { result ≡ sub_index_0 line (map section_view sections.now) text.now }
{
    match section_before(sections, line) {
        Some(section) => sub_index_0_of(sections, key_number(text), section.kind),
        None => About::Line,
    }
}

fn pdo_fact(sections: &[TextSection<'_, '_>], name: &[u8], number: u64) -> About
    ensures { result ≡ pdo_fact (map section_view sections.now) name.now number }
{
    if same_name(name, b"NrOfRXPDO") {
        return About::Fact(Fact::RpdoCount(number, object_count(0x1400, 0x15FF, sections)));
    }
    About::Fact(Fact::TpdoCount(number, object_count(0x1800, 0x19FF, sections)))
}

fn no_pdo_fact(sections: &[TextSection<'_, '_>], name: &[u8]) -> About
    ensures { result ≡ no_pdo_fact (map section_view sections.now) name.now }
{
    if same_name(name, b"NrOfRXPDO") {
        return About::Fact(Fact::NoRpdoCount(object_count(0x1400, 0x15FF, sections)));
    }
    About::Fact(Fact::NoTpdoCount(object_count(0x1800, 0x19FF, sections)))
}

/// Of the PdoCount of a line: its number, if it is one, and the number of PDOs.
pub fn pdo_count(sections: &[TextSection<'_, '_>], text: &[u8]) -> About
    ensures { result ≡ pdo_count (map section_view sections.now) text.now }
{
    match key_number(text) {
        Some(number) => pdo_fact(sections, key_name(text), number),
        None => no_pdo_fact(sections, key_name(text)),
    }
}

fn initial_number(section: &TextSection<'_, '_>) -> Option<u64>
    ensures { result ≡ initial_number (section_view section.now) }
{
    match value_in(section) {
        Some(property) => property.number(),
        None => None,
    }
}

fn identity_at(sections: &[TextSection<'_, '_>], sub: u8) -> Option<u64>
    ensures { result ≡ identity_at (map section_view sections.now) sub }
{
    let kind = SectionKind::SubIndex(Key { index: 0x1018, sub });
    match section_at(sections, kind) {
        Some(section) => initial_number(section),
        None => None,
    }
}

/// Of the IdentityNumber of a line: its number, if it can be read, and that of the identity object, at
/// this sub-index.
pub fn identity_number(sections: &[TextSection<'_, '_>], sub: u8, text: &[u8]) -> About
    ensures { result ≡ identity_number (map section_view sections.now) sub text.now }
{
    match (key_number(text), identity_at(sections, sub)) {
        (Some(number), Some(other)) => About::Fact(Fact::Identity(number, other)),
        (None, Some(other)) => About::Fact(Fact::NoIdentity(other)),
        (_, None) => About::Line,
    }
}
