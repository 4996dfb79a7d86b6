//! COB-IDs that depend on the node-ID.

ghost use Rattle.std.specs.Prelude.{◌≡◌, option_to_list};
ghost use Rattle.co_sheet_text.specs.Views.{section_view};
ghost use Rattle.co_sheet_warnings.specs.CobIds.{
  has_default_cob_id,
  fixed_cob_id,
  has_text_type,
  is_configured,
  is_enabled,
  is_node_id_last,
  node_id_last_at,
  node_id_place,
};

use co_sheet::section_at;
use co_sheet_text::{SectionKind, TextSection, same_name, trim, unsigned_number};
use co_sheet_text_warnings::{ReadText, is_within};
use co_text::split_at_first;

fn has_default_cob_id(kind: SectionKind) -> bool
    ensures { result ≡ has_default_cob_id kind }
{
    match kind {
        SectionKind::Object(index) => index == 0x1014,
        SectionKind::SubIndex(key) => {
            (key.sub == 1 && is_within(0x1800, 0x1803, key.index))
                || (key.index == 0x1200 && (key.sub == 1 || key.sub == 2))
        }
        _ => false,
    }
}

/// This bit of a COB-ID word disables it.
const DISABLED: u64 = 1 << 31;

// whether a number is the COB-ID of an object that is used
fn is_enabled(word: u64) -> bool
    ensures { result ≡ is_enabled word }
{
    word < DISABLED && word % (1 << 30) != 0
}

// whether a text is a device configuration file
fn is_configured(text: &ReadText) -> bool
    ensures { result ≡ is_configured text.now.sections }
{
    match section_at(text.sections(), SectionKind::DeviceCommissioning) {
        Some(_) => true,
        None => false,
    }
}

/// The line of a COB-ID that is a fixed number, of what a device sends by its node-ID as default, or of
/// the default SDO server; not in a device configuration file.
pub(crate) fn fixed_cob_id(text: &ReadText, section: &TextSection) -> Option<usize>
    ensures { option_to_list result
        ≡ fixed_cob_id text.now.sections (section_view section.now) }
{
    if !has_default_cob_id(section.kind) || is_configured(text) {
        return None;
    }
    let Some(given) = section.property(b"DefaultValue") else {
        return None;
    };
    match given.number() {
        Some(word) if is_enabled(word) => Some(given.line),
        _ => None,
    }
}

fn is_node_id_last(value: &[u8]) -> bool
    ensures { result ≡ is_node_id_last value.now }
{
    match split_at_first(value, b'+') {
        Some((left, right)) => {
            same_name(trim(right), b"$NODEID") && unsigned_number(trim(left)).is_ok()
        }
        None => false,
    }
}

// whether a section is that of a string or a domain
fn has_text_type(section: &TextSection) -> bool
    ensures { result ≡ has_text_type (section_view section.now) }
{
    match section.number_at(b"DataType") {
        Some(code) => (0x9 <= code && code <= 0xB) || code == 0xF,
        None => false,
    }
}

// the line of the value at a key, where it is such a formula
fn node_id_last_at(section: &TextSection, name: &[u8]) -> Option<usize>
    ensures { result ≡ node_id_last_at name.now (section_view section.now) }
{
    match section.property(name) {
        Some(given) if is_node_id_last(given.value) => Some(given.line),
        _ => None,
    }
}

/// The line of a formula with `$NODEID` after its number: the default, or else the value of a device
/// configuration file.
pub(crate) fn node_id_place(section: &TextSection) -> Option<usize>
    ensures { option_to_list result ≡ node_id_place (section_view section.now) }
{
    if has_text_type(section) {
        return None;
    }
    match node_id_last_at(section, b"DefaultValue") {
        Some(line) => Some(line),
        None => node_id_last_at(section, b"ParameterValue"),
    }
}
