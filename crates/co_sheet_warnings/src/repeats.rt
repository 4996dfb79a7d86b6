//! What comes twice where it should come once: an identifier, a name, and the node-ID of a heartbeat.

ghost use Rattle.std.specs.Prelude.{
  ◌≡◌,
  [],
  ◌∷◌,
  ◌++◌,
  if◌then◌else◌,
  filter_map,
  map,
  option_map,
  IfOk,
  OnOk,
};
ghost use Rattle.std.specs.List.{list_any};
ghost use Rattle.co_sheet_text.specs.Views.{property_view, section_view};
ghost use Rattle.co_sheet_warnings.specs.Repeats.{
  as_name,
  compared,
  compared_as,
  consumed_in,
  first_equal,
  first_line,
  first_passing,
  has_cob_id,
  identifier_name,
  identifier_of,
  is_consumer,
  name_in,
  passing,
  repeats,
  same_scoped,
  used_cob_id,
  use_of,
  used_number,
};
ghost use Rattle.co_sheet_text_warnings.specs.Places.{warnings_at};
ghost use Rattle.co_sheet_warnings.specs.private.Views.{
  again_at,
  is_sought,
  kept_with,
  name_view,
  placed_in,
  repeats_of,
  scoped_view,
};

use crate::communication::{is_used_word, node_of_word, word_of};
use crate::sub_indices::value_in;
use co_sheet::{Preset, numeric_default};
use co_sheet_text::{Property, SectionKind, TextSection};
use co_sheet_text_warnings::{Warning, WarningKind, is_within};
use co_value::DataType;
use indexmap::IndexSet;
use std::alloc::{AllocError, Global};

fn has_cob_id(kind: SectionKind) -> bool
    ensures { result ≡ has_cob_id kind }
{
    match kind {
        SectionKind::Object(index) => index == 0x1005 || index == 0x1012 || index == 0x1014,
        SectionKind::SubIndex(key) => {
            (key.sub == 1
                && (is_within(0x1400, 0x15FF, key.index) || is_within(0x1800, 0x19FF, key.index)))
                || ((key.sub == 1 || key.sub == 2) && is_within(0x1200, 0x12FF, key.index))
        }
        _ => false,
    }
}

/// By which bits of its word a COB-ID is used.
#[derive(Clone, Copy)]
pub(crate) enum CobIdUse {
    /// That of SYNC: by none, so always.
    Sync,
    /// That of TIME: by bit 31 the device receives it, by bit 30 it sends it.
    Time,
    /// Any other: bit 31 disables it.
    Other,
}

/// This bit of a COB-ID word disables it, but by it 1012h has that the device receives TIME.
const DISABLED: i128 = 1 << 31;
/// By this bit 1012h has that the device sends TIME.
const SENT: i128 = 1 << 30;
/// Above all COB-ID words.
const WORDS: i128 = 1 << 32;

fn use_of(kind: SectionKind) -> CobIdUse
    ensures { result ≡ use_of kind }
{
    match kind {
        SectionKind::Object(0x1005) => CobIdUse::Sync,
        SectionKind::Object(0x1012) => CobIdUse::Time,
        _ => CobIdUse::Other,
    }
}

// a number that is a COB-ID in use
fn used_number(by: CobIdUse, number: i128) -> Option<u64>
    ensures { result ≡ used_number by number }
{
    let is_used = match by {
        CobIdUse::Sync => 0 <= number && number < WORDS,
        CobIdUse::Time => SENT <= number && number < WORDS,
        CobIdUse::Other => 0 <= number && number < DISABLED,
    };
    if is_used { Some(number as u64) } else { None }
}

// the COB-ID of a text for a node; `None` where it isn't used
fn used_cob_id(node: u8, by: CobIdUse, value: &[u8]) -> Option<u64>
    ensures { result ≡ used_cob_id node by value.now }
{
    match numeric_default(DataType::Unsigned32, value) {
        Ok(Preset::Number(number)) => used_number(by, number),
        Ok(Preset::NodeId(addend)) => used_number(by, addend as i128 + node as i128),
        _ => None,
    }
}

/// The scope of the names of objects.
const OBJECTS: u64 = 0x1_0000;

/// A name among those of objects, or of the sub-indices of one object; or an identifier.
#[derive(Clone, Copy, PartialEq, Eq, Hash)]
pub(crate) struct ScopedName<'a> {
    /// The index of the object whose sub-index has the name; above all of these for objects; an
    /// identifier; a node-ID.
    pub(crate) scope: u64,
    /// Empty for an identifier and for a node-ID.
    pub(crate) text: &'a [u8],
}

/// A name, an identifier or a node-ID, and its line.
#[derive(Drop)]
pub(crate) struct PlacedName<'a> {
    pub(crate) name: ScopedName<'a>,
    pub(crate) line: usize,
}

// the identifier of a value for a node
fn identifier_of<'a>(node: u8, by: CobIdUse, given: &Property) -> Option<PlacedName<'a>>
    ensures { option_map name_view result
        ≡ option_map as_name (identifier_of node by (property_view given.now)) }
{
    let Some(word) = used_cob_id(node, by, given.value) else {
        return None;
    };
    let scope = word % (1 << 30);
    if scope == 0 {
        return None;
    }
    Some(PlacedName {
        name: ScopedName { scope, text: b"" },
        line: given.line,
    })
}

// the identifier of an entry with a COB-ID, for a node
fn identifier_in<'a>(node: u8, section: &TextSection<'_, 'a>) -> Option<PlacedName<'a>>
    ensures { option_map name_view result
        ≡ identifier_name node (section_view section.now) }
{
    if !has_cob_id(section.kind) {
        return None;
    }
    match value_in(section) {
        Some(given) => identifier_of(node, use_of(section.kind), &given),
        None => None,
    }
}

/// What should come once.
#[derive(Clone, Copy)]
pub(crate) enum Once {
    /// The identifiers of SYNC, TIME, EMCY, PDOs and SDO channels, for a node-ID.
    Identifiers(u8),
    /// The node-IDs that 1016h consumes; a sum with `$NODEID` is for this node-ID.
    Consumed(Option<u8>),
    /// The names of objects, and those of the sub-indices of an object.
    Names,
}

fn is_consumer(kind: SectionKind) -> bool
    ensures { result ≡ is_consumer kind }
{
    match kind {
        SectionKind::SubIndex(key) => key.index == 0x1016 && 0 < key.sub,
        _ => false,
    }
}

// the node-ID of a word of 1016h that is used
fn consumed_in<'a>(node: Option<u8>, section: &TextSection<'_, 'a>) -> Option<PlacedName<'a>>
    ensures { option_map name_view result ≡ consumed_in node (section_view section.now) }
{
    if !is_consumer(section.kind) {
        return None;
    }
    let Some(given) = value_in(section) else {
        return None;
    };
    match word_of(node, &given) {
        Some(word) if is_used_word(word) => Some(PlacedName {
            name: ScopedName {
                scope: node_of_word(word),
                text: b"",
            },
            line: given.line,
        }),
        _ => None,
    }
}

// the name of an object or a sub-index
fn name_in<'a>(section: &TextSection<'_, 'a>) -> Option<PlacedName<'a>>
    ensures { option_map name_view result ≡ name_in (section_view section.now) }
{
    let scope = match section.kind {
        SectionKind::Object(_) => OBJECTS,
        SectionKind::SubIndex(key) => key.index as u64,
        _ => return None,
    };
    match section.property(b"ParameterName") {
        Some(given) => Some(PlacedName {
            name: ScopedName {
                scope,
                text: given.value,
            },
            line: given.line,
        }),
        None => None,
    }
}

fn placed_in<'a>(once: Once, section: &TextSection<'_, 'a>) -> Option<PlacedName<'a>>
    ensures { option_map name_view result ≡ placed_in once (section_view section.now) }
{
    match once {
        Once::Identifiers(node) => identifier_in(node, section),
        Once::Consumed(node) => consumed_in(node, section),
        Once::Names => name_in(section),
    }
}

/// What a warning compares, and its line.
#[derive(Clone, Copy)]
pub struct ComparedNumber {
    /// An identifier, with bit 29 of its COB-ID; or a node-ID.
    pub number: u64,
    pub line: usize,
}

fn compared_as(found: Option<PlacedName>) -> Option<ComparedNumber>
    ensures { result ≡ option_map compared_as (option_map name_view found.entry) }
{
    match found {
        Some(place) => Some(ComparedNumber {
            number: place.name.scope,
            line: place.line,
        }),
        None => None,
    }
}

/// Of a section what SharedCobId or HeartbeatTwice compares: its identifier, or the node-ID that it
/// consumes, if it has one.
pub fn compared(kind: WarningKind, section: &TextSection) -> Option<ComparedNumber>
    ensures { result ≡ compared kind (section_view section.now) }
{
    match kind {
        WarningKind::SharedCobId(node) => compared_as(identifier_in(node, section)),
        WarningKind::HeartbeatTwice(node) => compared_as(consumed_in(node, section)),
        _ => None,
    }
}

// whether a name equals an earlier one; else it is added to these
#[tactic(auto, using(crate::proofs::NameLemmas::more_names))]
fn is_repeated<'a>(
    before: &mut IndexSet<ScopedName<'a>>,
    name: ScopedName<'a>,
) -> Result<bool, AllocError>
    ensures again { IfOk result (λ again. again
        ≡ list_any (same_scoped (scoped_view name.entry)) (map scoped_view before.old.keys)) }
    ensures keys { IfOk result (λ again. map scoped_view before.new.keys
        ≡ (if again then map scoped_view before.old.keys
        else map scoped_view before.old.keys ++ scoped_view name.entry ∷ [])) }
{
    let is_new = attempt_in_memory!(before.insert(name));
    Ok(!is_new)
}

// adds a warning, if a section has what an earlier one has; else what it has is added to `before`
fn add_repeat<'a>(
    warnings: &mut Vec<Warning>,
    kind: WarningKind,
    before: &mut IndexSet<ScopedName<'a>>,
    found: Option<PlacedName<'a>>,
) -> Result<(), AllocError>
    ensures warnings { OnOk result (warnings.new.items ≡ warnings.old.items ++ warnings_at kind
        (again_at (map scoped_view before.old.keys) (option_map name_view found.entry))) }
    ensures before { OnOk result (map scoped_view before.new.keys
        ≡ kept_with (map scoped_view before.old.keys) (option_map name_view found.entry)) }
{
    let Some(place) = found else {
        return Ok(());
    };
    if !attempt!(is_repeated(before, place.name)) {
        return Ok(());
    }
    attempt_in_memory!(warnings.push(Warning {
        kind,
        line: place.line,
    }));
    Ok(())
}

// adds warnings at the lines of what earlier sections have too; `before` has what they have
fn add_repeats<'a>(
    warnings: &mut Vec<Warning>,
    kind: WarningKind,
    before: &mut IndexSet<ScopedName<'a>>,
    once: Once,
    sections: &[TextSection<'_, 'a>],
) -> Result<(), AllocError>
    ensures { OnOk result (warnings.new.items ≡ warnings.old.items ++ warnings_at kind
        (repeats same_scoped (map scoped_view before.old.keys)
        (filter_map (placed_in once) (map section_view sections.now)))) }
{
    for section in sections {
        attempt!(add_repeat(warnings, kind, before, placed_in(once, section)));
    }
    Ok(())
}

/// Adds warnings at the lines of identifiers or names that an earlier one equals.
pub(crate) fn add_repeats_of(
    alloc: Global,
    warnings: &mut Vec<Warning>,
    kind: WarningKind,
    once: Once,
    sections: &[TextSection],
) -> Result<(), AllocError>
    ensures { OnOk result (warnings.new.items ≡ warnings.old.items
        ++ warnings_at kind (repeats_of once (map section_view sections.now))) }
{
    let mut before = IndexSet::new(alloc);
    add_repeats(warnings, kind, &mut before, once, sections)
}

/// What is looked for among names.
#[derive(Clone, Copy)]
enum Sought<'a> {
    /// The one at a line.
    At(usize),
    /// One before a line that equals this.
    Before(usize, ScopedName<'a>),
}

fn is_sought(sought: Sought<'_>, place: &PlacedName<'_>) -> bool
    ensures { result ≡ is_sought sought.entry (name_view place.now) }
{
    match sought {
        Sought::At(line) => place.line == line,
        Sought::Before(line, name) => name == place.name && place.line < line,
    }
}

// what a section has, if it is looked for
fn sought_in<'a>(
    sought: Sought<'_>,
    once: Once,
    section: &TextSection<'_, 'a>,
) -> Option<PlacedName<'a>>
    ensures { option_map name_view result
        ≡ passing (is_sought sought.entry) (placed_in once (section_view section.now)) }
{
    match placed_in(once, section) {
        Some(place) if is_sought(sought, &place) => Some(place),
        _ => None,
    }
}

// the first that is looked for
fn first_sought<'a>(
    sought: Sought<'_>,
    once: Once,
    sections: &[TextSection<'_, 'a>],
) -> Option<PlacedName<'a>>
    ensures { option_map name_view result ≡ first_passing (is_sought sought.entry)
        (placed_in once) (map section_view sections.now) }
{
    for section in sections {
        if let Some(place) = sought_in(sought, once, section) {
            return Some(place);
        }
    }
    None
}

fn first_line(once: Once, sections: &[TextSection], line: usize) -> Option<usize>
    ensures { result ≡ first_line (placed_in once) line (map section_view sections.now) }
{
    let Some(place) = first_sought(Sought::At(line), once, sections) else {
        return None;
    };
    match first_sought(Sought::Before(line, place.name), once, sections) {
        Some(first) => Some(first.line),
        None => None,
    }
}

/// Of a kind that is about what comes twice: the line of the first of what is at a line, if it is
/// before that line.
pub fn first_equal(kind: WarningKind, sections: &[TextSection], line: usize) -> Option<usize>
    ensures { result ≡ first_equal kind line (map section_view sections.now) }
{
    match kind {
        WarningKind::SharedCobId(node) => first_line(Once::Identifiers(node), sections, line),
        WarningKind::HeartbeatTwice(node) => first_line(Once::Consumed(node), sections, line),
        WarningKind::EqualNames => first_line(Once::Names, sections, line),
        _ => None,
    }
}
