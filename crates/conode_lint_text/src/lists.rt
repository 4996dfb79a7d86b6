//! What the object lists of a sheet have where a finding is.

ghost use Rattle.std.specs.Prelude.{◌≡◌, map};
ghost use Rattle.co_sheet_text.specs.Views.{property_view, section_view};
ghost use Rattle.conode_lint_text.specs.Facts.{
  bad_list,
  count_fact,
  first_listed,
  gap_fact,
  has_key,
  high_fact,
  high_line,
  is_key_at,
  is_high,
  is_key_to,
  is_listed_nowhere,
  key_count,
  list_fact,
  list_line,
  listed_in,
  listed_line,
  listed_twice,
  missing_mandatory,
  names_index,
  next_key,
};

use crate::fact::Fact;
use crate::facts::section_on;
use crate::finding::About;
use crate::line_facts::key_number;
use co_sheet_text::{Property, TextSection, number_in};

fn is_key_to(most: u64, name: &[u8]) -> bool
    ensures { result ≡ is_key_to most name.now }
{
    match number_in(10, name) {
        Some(number) => number <= most,
        None => false,
    }
}

// how many keys are numbers up to this one
fn key_count(most: u64, properties: &[Property<'_>]) -> usize
    ensures { result ≡ key_count most (map property_view properties.now) }
{
    let mut count = 0;
    for property in properties {
        if is_key_to(most, property.name) {
            count += 1;
        }
    }
    count
}

fn is_key_at(place: usize, name: &[u8]) -> bool
    ensures { result ≡ is_key_at place name.now }
{
    match number_in(10, name) {
        Some(number) => number == place as u64,
        None => false,
    }
}

// the key after 1, 2, 3 and so on, as far as they come one after another
fn next_key(properties: &[Property<'_>]) -> usize
    ensures { result ≡ next_key (map property_view properties.now) }
{
    let mut next = 1;
    for property in properties {
        if is_key_at(next, property.name) {
            next += 1;
        }
    }
    next
}

fn has_key(place: usize, properties: &[Property<'_>]) -> bool
    ensures { result ≡ has_key place (map property_view properties.now) }
{
    for property in properties {
        if is_key_at(place, property.name) {
            return true;
        }
    }
    false
}

fn gap_fact(counted: u64, has: usize, properties: &[Property<'_>], next: usize) -> About
    ensures { result ≡ gap_fact counted has (map property_view properties.now) next }
{
    if has_key(next, properties) {
        return About::Fact(Fact::ListCount(counted, has));
    }
    About::Fact(Fact::ListGap(counted, has, next))
}

fn is_high(counted: u64, property: &Property<'_>) -> bool
    ensures { result ≡ is_high counted (property_view property.now) }
{
    if !is_key_to(counted, property.name) {
        return false;
    }
    match property.number() {
        Some(number) => number > 65535,
        None => false,
    }
}

// the line of the first key with an index above 0xFFFF
fn high_line(counted: u64, properties: &[Property<'_>]) -> Option<usize>
    ensures { result ≡ high_line counted (map property_view properties.now) }
{
    for property in properties {
        if is_high(counted, property) {
            return Some(property.line);
        }
    }
    None
}

fn high_fact(counted: u64, properties: &[Property<'_>]) -> About
    ensures { result ≡ high_fact counted (map property_view properties.now) }
{
    match high_line(counted, properties) {
        Some(line) => About::Fact(Fact::HighIndex(line)),
        None => About::Line,
    }
}

fn count_fact(counted: u64, properties: &[Property<'_>], has: usize) -> About
    ensures { result ≡ count_fact counted (map property_view properties.now) has }
{
    if (has as u64) < counted {
        return gap_fact(counted, has, properties, next_key(properties));
    }
    if counted > 65535 {
        return About::Line;
    }
    high_fact(counted, properties)
}

fn list_fact(list: &TextSection<'_, '_>) -> About
    ensures { result ≡ list_fact (section_view list.now) }
{
    match list.number_at(b"SupportedObjects") {
        Some(counted) => {
            let has = key_count(counted, list.properties);
            count_fact(counted, list.properties, has)
        }
        None => About::Fact(Fact::NoCount),
    }
}

/// Of the BadList of the section at a line: what it counts and what it has.
pub fn bad_list(sections: &[TextSection<'_, '_>], line: usize) -> About
    ensures { result ≡ bad_list line (map section_view sections.now) }
{
    match section_on(sections, line) {
        Some(section) => list_fact(section),
        None => About::Line,
    }
}

fn names_index(index: u64, counted: u64, property: &Property<'_>) -> bool
    ensures { result ≡ names_index index counted (property_view property.now) }
{
    match property.number() {
        Some(number) => number == index && is_key_to(counted, property.name),
        None => false,
    }
}

// the line of the key that names an index, of keys up to a number
fn listed_in(index: u64, counted: u64, properties: &[Property<'_>]) -> Option<usize>
    ensures { result ≡ listed_in index counted (map property_view properties.now) }
{
    for property in properties {
        if names_index(index, counted, property) {
            return Some(property.line);
        }
    }
    None
}

// the line where a section names an index, if it is an object list
fn list_line(index: u64, section: &TextSection<'_, '_>) -> Option<usize>
    ensures { result ≡ list_line index (section_view section.now) }
{
    if !section.kind.is_list() {
        return None;
    }
    match section.number_at(b"SupportedObjects") {
        Some(counted) => listed_in(index, counted, section.properties),
        None => None,
    }
}

// the first line where the lists name an index
fn listed_line(index: u64, sections: &[TextSection<'_, '_>]) -> Option<usize>
    ensures { result ≡ listed_line index (map section_view sections.now) }
{
    for section in sections {
        if let Some(line) = list_line(index, section) {
            return Some(line);
        }
    }
    None
}

fn first_listed(sections: &[TextSection<'_, '_>], index: u64) -> About
    ensures { result ≡ first_listed (map section_view sections.now) index }
{
    match listed_line(index, sections) {
        Some(line) => About::FirstAt(line),
        None => About::Line,
    }
}

/// Of the ListedTwice of a line: the first line with the index.
pub fn listed_twice(sections: &[TextSection<'_, '_>], text: &[u8]) -> About
    ensures { result ≡ listed_twice (map section_view sections.now) text.now }
{
    match key_number(text) {
        Some(index) => first_listed(sections, index),
        None => About::Line,
    }
}

/// Whether no object list names an index.
pub fn is_listed_nowhere(sections: &[TextSection<'_, '_>], index: u64) -> bool
    ensures { result ≡ is_listed_nowhere (map section_view sections.now) index }
{
    listed_line(index, sections).is_none()
}

/// Of MissingMandatory: which of 1000h, 1001h and 1018h no object list names.
pub fn missing_mandatory(sections: &[TextSection<'_, '_>]) -> About
    ensures { result ≡ missing_mandatory (map section_view sections.now) }
{
    About::Fact(Fact::NotListed(
        is_listed_nowhere(sections, 0x1000),
        is_listed_nowhere(sections, 0x1001),
        is_listed_nowhere(sections, 0x1018),
    ))
}
