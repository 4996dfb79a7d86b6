//! Which bound of its entry a value or a limit exceeds.

ghost use Rattle.std.specs.Prelude.{◌≡◌, false, Some, map, option_and_then};
ghost use Rattle.std.specs.Option.{option_map_or};
ghost use Rattle.co_sheet_text.specs.Views.{section_view};
ghost use Rattle.conode_lint_text.specs.Bounds.{
  about_fact,
  above_fact,
  bad_default,
  bad_limits,
  below_fact,
  bound_at,
  crossed_fact,
  high_fact,
  is_outside,
  limit_in,
  limit_of,
  limit_passed,
  number_of,
  numeric_type,
  pairs_fact,
  value_in,
};

use crate::fact::Fact;
use crate::facts::section_before;
use crate::finding::About;
use crate::line_facts::key_value;
use co_sheet::{Preset, at_most, data_type_with, is_in_type, numeric_default};
use co_sheet_text::TextSection;
use co_value::DataType;

/// The type of a section whose values are numbers.
pub(crate) fn numeric_type(section: &TextSection<'_, '_>) -> Option<DataType>
    ensures { result ≡ numeric_type (section_view section.now) }
{
    let Some(code) = section.number_at(b"DataType") else {
        return None;
    };
    match data_type_with(code) {
        Some(data_type) if data_type.width().is_some() => Some(data_type),
        _ => None,
    }
}

// the number that a value is at a type; a sum with `$NODEID` is none
fn number_of(data_type: DataType, value: &[u8]) -> Option<i128>
    ensures { result ≡ number_of data_type value.now }
{
    match numeric_default(data_type, value) {
        Ok(Preset::Number(number)) => Some(number),
        _ => None,
    }
}

/// A limit of an entry, on its line.
#[derive(Clone, Copy)]
pub(crate) struct Bound {
    line: usize,
    pub(crate) number: i128,
}

/// A limit that is a number at its type.
pub(crate) fn bound_at(
    data_type: DataType,
    name: &[u8],
    section: &TextSection<'_, '_>,
) -> Option<Bound>
    ensures { result ≡ bound_at data_type name.now (section_view section.now) }
{
    let Some(limit) = section.property(name) else {
        return None;
    };
    match number_of(data_type, limit.value) {
        Some(number) => Some(Bound {
            line: limit.line,
            number,
        }),
        None => None,
    }
}

// a limit outside the type, which is itself at fault
fn is_outside(data_type: DataType, limit: Option<Bound>) -> bool
    ensures { result ≡ option_map_or (is_outside data_type) limit false }
{
    match limit {
        Some(limit) => !is_in_type(data_type, limit.number),
        None => false,
    }
}

fn below_fact(number: i128, low: Option<Bound>) -> Option<Fact>
    ensures { result ≡ option_and_then (below_fact number) low }
{
    match low {
        Some(low) if !at_most(Some(low.number), Some(number)) => {
            Some(Fact::BelowLow(low.line, low.number))
        }
        _ => None,
    }
}

fn high_fact(high: Bound) -> Fact
    ensures { result ≡ high_fact high }
{
    if at_most(Some(0), Some(high.number)) {
        return Fact::AboveHigh(high.line, high.number);
    }
    Fact::AboveNegative(high.line, high.number)
}

fn above_fact(number: i128, high: Option<Bound>) -> Option<Fact>
    ensures { result ≡ option_and_then (above_fact number) high }
{
    match high {
        Some(high) if !at_most(Some(number), Some(high.number)) => Some(high_fact(high)),
        _ => None,
    }
}

fn about_fact(found: Option<Fact>) -> About
    ensures { result ≡ about_fact found }
{
    match found {
        Some(fact) => About::Fact(fact),
        None => About::Line,
    }
}

// the limit that a number within the type exceeds: LowLimit comes first, last where it is outside
// the type
fn limit_passed(data_type: DataType, number: i128, section: &TextSection<'_, '_>) -> About
    ensures { result ≡ limit_passed data_type number (section_view section.now) }
{
    let low = bound_at(data_type, b"LowLimit", section);
    let below = below_fact(number, low);
    let above = above_fact(number, bound_at(data_type, b"HighLimit", section));
    if is_outside(data_type, low) {
        return about_fact(above.or(below));
    }
    about_fact(below.or(above))
}

// what is said of a value of another type: an OCTET_STRING has a form of its own
fn pairs_fact(section: &TextSection<'_, '_>) -> About
    ensures { result ≡ pairs_fact (section_view section.now) }
{
    match section.number_at(b"DataType") {
        Some(0xA) => About::Fact(Fact::NoPairs),
        _ => About::Line,
    }
}

fn value_in(section: &TextSection<'_, '_>, text: &[u8]) -> About
    ensures { result ≡ value_in text.now (section_view section.now) }
{
    let Some(data_type) = numeric_type(section) else {
        return pairs_fact(section);
    };
    match number_of(data_type, key_value(text)) {
        Some(number) if is_in_type(data_type, number) => limit_passed(data_type, number, section),
        Some(_) => About::Fact(Fact::ValueOutside(data_type)),
        None => About::Line,
    }
}

/// Of the BadDefault of a line: the limit that its value exceeds, or the form of its type.
pub fn bad_default(sections: &[TextSection<'_, '_>], line: usize, text: &[u8]) -> About
    ensures { result ≡ bad_default line (map section_view sections.now) text.now }
{
    match section_before(sections, line) {
        Some(section) => value_in(section, text),
        None => About::Line,
    }
}

fn crossed_fact(number: i128, line: usize) -> Fact
    ensures { result ≡ crossed_fact number line }
{
    if at_most(Some(0), Some(number)) {
        return Fact::LimitsCrossed(line);
    }
    Fact::NegativeHigh(line)
}

// which of both a limit that is a number is: outside the type, or below LowLimit
fn limit_of(section: &TextSection<'_, '_>, data_type: DataType, number: i128) -> About
    ensures { result ≡ limit_of (section_view section.now) data_type (Some number) }
{
    if !is_in_type(data_type, number) {
        return About::Fact(Fact::LimitOutside(data_type));
    }
    match bound_at(data_type, b"LowLimit", section) {
        Some(low) if !at_most(Some(low.number), Some(number)) => {
            About::Fact(crossed_fact(number, low.line))
        }
        _ => About::Line,
    }
}

fn limit_in(section: &TextSection<'_, '_>, text: &[u8]) -> About
    ensures { result ≡ limit_in text.now (section_view section.now) }
{
    let Some(data_type) = numeric_type(section) else {
        return About::Line;
    };
    match number_of(data_type, key_value(text)) {
        Some(number) => limit_of(section, data_type, number),
        None => About::Line,
    }
}

/// Of the BadLimits of a line: its limit is outside the type, or below this LowLimit.
pub fn bad_limits(sections: &[TextSection<'_, '_>], line: usize, text: &[u8]) -> About
    ensures { result ≡ bad_limits line (map section_view sections.now) text.now }
{
    match section_before(sections, line) {
        Some(section) => limit_in(section, text),
        None => About::Line,
    }
}
