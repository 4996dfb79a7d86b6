//! What is at fault in an entry.

ghost use Rattle.std.specs.Prelude.{
  ◌≡◌,
  ◌++◌,
  Some,
  None,
  true,
  false,
  codes,
  OnOk,
  if◌then◌else◌,
};
ghost use Rattle.co_sheet_text.specs.Sections.{property_at};
ghost use Rattle.co_sheet_text.specs.Views.{section_view};
ghost use Rattle.co_sheet.specs.ObjectLists.{is_one_of};
ghost use Rattle.co_sheet.specs.Entries.{single_codes, type_code, data_type_of};
ghost use Rattle.co_sheet.specs.Limits.{is_numeric, limit_at};
ghost use Rattle.co_sheet.specs.Checks.{
  at_key,
  is_low_first,
  type_line,
  left_out_codes,
  bad_access,
  unread_limit,
};
ghost use Rattle.co_sheet.specs.SectionViews.{entry_view};
ghost use Rattle.co_sheet.specs.Views.{default_view};
ghost use Rattle.co_sheet_faults.specs.Soundness.{
  is_object_type_at_fault,
  is_data_type_at_fault,
  is_outside,
};
ghost use Rattle.co_sheet_faults.specs.AllChecks.{key_found, of_sound_type, default_found_at};
ghost use Rattle.co_sheet_faults.specs.private.Collected.{
  type_collected,
  default_collected,
  numeric_collected,
  values_at,
  values_collected,
  entry_collected,
};
ghost use Rattle.co_sheet_faults.specs.private.EntryParts.{
  lacks_key,
  AreLimits,
  limit_if,
  is_beyond,
};

use crate::faults::{add_if, add_unread, add_unread_at};
use co_sheet::{
    EntrySection, FaultKind, Preset, SheetFault, access_with, at_most, data_type_with, is_in_type,
    is_left_out, is_pairs, numeric_default,
};
use co_sheet_text::{TextSection, signed_numeral};
use co_value::DataType;
use std::alloc::AllocError;

// whether an object type has one entry, in the object's own section
pub(crate) fn is_single(code: Option<u64>) -> bool
    ensures { result ≡ is_one_of single_codes code }
{
    matches!(code, Some(2 | 7))
}

// whether the ObjectType of an entry is given and is neither VAR's nor DOMAIN's
fn is_object_type_bad(entry: &EntrySection) -> bool
    ensures { result ≡ is_object_type_at_fault (entry_view entry.now) }
{
    match entry.section.property(b"ObjectType") {
        Some(given) => !is_single(given.number()),
        None => false,
    }
}

// whether an entry has no DataType or no AccessType, which object type 2 needs neither of
fn lacks_key(entry: &EntrySection) -> bool
    ensures { result ≡ lacks_key (entry_view entry.now) }
{
    let type_given = entry.section.property(b"DataType");
    let access_given = entry.section.property(b"AccessType");
    !entry.is_domain() && (type_given.is_none() || access_given.is_none())
}

// adds an entry without DataType or AccessType
fn add_missing_key(faults: &mut Vec<SheetFault>, entry: &EntrySection) -> Result<(), AllocError>
    ensures { OnOk result
        (faults.new.items ≡ faults.old.items ++ key_found (entry_view entry.now)) }
{
    if is_object_type_bad(entry) {
        return Ok(());
    }
    let is_missing = lacks_key(entry);
    add_if(
        faults,
        is_missing,
        FaultKind::MissingKey,
        entry.section.line,
    )
}

// the code of the data type: DOMAIN's where object type 2 states none
fn type_code(entry: &EntrySection) -> Option<u64>
    ensures { result ≡ type_code (entry_view entry.now) }
{
    match entry.section.property(b"DataType") {
        Some(given) => given.number(),
        None if entry.is_domain() => Some(0x0F),
        None => None,
    }
}

// the line of DataType, or of the section where there is none
fn type_line(entry: &EntrySection) -> usize
    ensures { result ≡ type_line (entry_view entry.now) }
{
    match entry.section.property(b"DataType") {
        Some(given) => given.line,
        None => entry.section.line,
    }
}

// whether the data type is at fault
fn is_type_bad(entry: &EntrySection) -> bool
    ensures { result ≡ is_data_type_at_fault (entry_view entry.now) }
{
    match type_code(entry) {
        Some(code) => entry.is_bad_type(entry.is_domain(), code),
        None => false,
    }
}

// whether the data type is one that isn't supported
fn is_type_left_out(entry: &EntrySection) -> bool
    ensures { result ≡ is_one_of left_out_codes (type_code (entry_view entry.now)) }
{
    match type_code(entry) {
        Some(code) => is_left_out(code),
        None => false,
    }
}

// adds a DataType that is no number, that is at fault, or that isn't supported
fn add_type(faults: &mut Vec<SheetFault>, entry: &EntrySection) -> Result<(), AllocError>
    ensures { OnOk result
        (faults.new.items ≡ faults.old.items ++ type_collected (entry_view entry.now)) }
{
    attempt!(add_unread_at(faults, entry.section, b"DataType"));
    let line = type_line(entry);
    if is_type_bad(entry) {
        return add_if(faults, true, FaultKind::BadType, line);
    }
    let is_left_out = is_type_left_out(entry);
    add_if(faults, is_left_out, FaultKind::LeftOutType, line)
}

// adds an AccessType that is no access
fn add_access(faults: &mut Vec<SheetFault>, entry: &EntrySection) -> Result<(), AllocError>
    ensures { OnOk result
        (faults.new.items ≡ faults.old.items ++ bad_access (entry_view entry.now)) }
{
    let Some(given) = entry.section.property(b"AccessType") else {
        return Ok(());
    };
    let is_bad = access_with(given.value).is_none();
    add_if(faults, is_bad, FaultKind::BadAccess, given.line)
}

// adds a limit of a numeric type that is no number
fn add_unread_limit(
    faults: &mut Vec<SheetFault>,
    section: &TextSection,
    data_type: DataType,
    name: &[u8],
) -> Result<(), AllocError>
    ensures { OnOk result (faults.new.items
        ≡ faults.old.items ++ at_key (unread_limit data_type) name.now (section_view section.now)) }
{
    let Some(given) = section.property(name) else {
        return Ok(());
    };
    match signed_numeral(given.value) {
        Ok(_) => Ok(()),
        Err(fault) => add_unread(faults, fault, given.line),
    }
}

// the limit at a key, where it can be read
fn limit_at(entry: &EntrySection, data_type: DataType, name: &[u8]) -> Option<i128>
    requires { is_numeric data_type ≡ true }
    ensures { result ≡ limit_at name.now data_type (entry_view entry.now) }
{
    let Some(given) = entry.section.property(name) else {
        return None;
    };
    match signed_numeral(given.value) {
        Ok(numeral) => Some(numeral.value_at(data_type)),
        Err(_) => None,
    }
}

// whether a limit that can be read is outside the type's range
fn is_outside(data_type: DataType, limit: Option<i128>) -> bool
    ensures { result ≡ is_outside data_type limit }
{
    match limit {
        Some(value) => !is_in_type(data_type, value),
        None => false,
    }
}

// whether LowLimit is on an earlier line than HighLimit
fn is_low_first(section: &TextSection) -> bool
    ensures { result ≡ is_low_first
        (property_at (codes "LowLimit") (section_view section.now))
        (property_at (codes "HighLimit") (section_view section.now)) }
{
    match (
        section.property(b"LowLimit"),
        section.property(b"HighLimit"),
    ) {
        (Some(low), Some(high)) => low.line < high.line,
        _ => false,
    }
}

// a limit, where it isn't at fault
fn sound(is_bad: bool, limit: Option<i128>) -> Option<i128>
    ensures { result ≡ (if is_bad then None else limit) }
{
    if is_bad { None } else { limit }
}

/// The limits of an entry of a numeric type.
#[derive(Clone, Copy)]
struct Limits {
    /// LowLimit, where it isn't at fault.
    low: Option<i128>,
    /// HighLimit, where it isn't at fault.
    high: Option<i128>,
    is_low_bad: bool,
    is_high_bad: bool,
}

fn limits_of(entry: &EntrySection, data_type: DataType) -> Limits
    requires { is_numeric data_type ≡ true }
    ensures { AreLimits data_type (entry_view entry.now) result }
{
    let low = limit_at(entry, data_type, b"LowLimit");
    let high = limit_at(entry, data_type, b"HighLimit");
    let is_low_bad = is_outside(data_type, low);
    let rests = is_low_first(entry.section) && is_low_bad;
    let is_high_bad = is_outside(data_type, high) || (!at_most(low, high) && !rests);
    Limits {
        low: sound(is_low_bad, low),
        high: sound(is_high_bad, high),
        is_low_bad,
        is_high_bad,
    }
}

// adds the limit at a key, if it is at fault
fn add_limit(
    faults: &mut Vec<SheetFault>,
    section: &TextSection,
    name: &[u8],
    is_bad: bool,
) -> Result<(), AllocError>
    ensures { OnOk result (faults.new.items
        ≡ faults.old.items ++ at_key (limit_if is_bad) name.now (section_view section.now)) }
{
    let Some(given) = section.property(name) else {
        return Ok(());
    };
    add_if(faults, is_bad, FaultKind::BadLimits, given.line)
}

// whether a default is a number outside the type or the limits, or no pairs of digits
fn is_default_bad(data_type: DataType, limits: &Limits, preset: Preset) -> bool
    ensures { result
        ≡ is_beyond data_type limits.now.low limits.now.high (default_view preset.entry) }
{
    match preset {
        Preset::Number(value) => {
            !(is_in_type(data_type, value)
                && at_most(limits.low, Some(value))
                && at_most(Some(value), limits.high))
        }
        Preset::Pairs(digits) => !is_pairs(digits),
        Preset::Absent | Preset::NodeId(_) | Preset::Text(_) => false,
    }
}

// adds the default at a key of a numeric entry, where it is no number or is at fault
fn add_default(
    faults: &mut Vec<SheetFault>,
    entry: &EntrySection,
    data_type: DataType,
    limits: &Limits,
    name: &[u8],
) -> Result<(), AllocError>
    requires numeric { is_numeric data_type ≡ true }
    requires read { data_type_of (entry_view entry.now) ≡ Some data_type }
    requires limits { AreLimits data_type (entry_view entry.now) limits.now }
    ensures { OnOk result (faults.new.items
        ≡ faults.old.items ++ default_collected name.now data_type (entry_view entry.now)) }
{
    let Some(given) = entry.section.property(name) else {
        return Ok(());
    };
    match numeric_default(data_type, given.value) {
        Ok(preset) => {
            let is_bad = is_default_bad(data_type, limits, preset);
            add_if(faults, is_bad, FaultKind::BadDefault, given.line)
        }
        Err(fault) => add_unread(faults, fault, given.line),
    }
}

// adds the limits and the defaults of a numeric entry that are at fault
fn add_numeric(
    faults: &mut Vec<SheetFault>,
    entry: &EntrySection,
    data_type: DataType,
) -> Result<(), AllocError>
    requires numeric { is_numeric data_type ≡ true }
    requires read { data_type_of (entry_view entry.now) ≡ Some data_type }
    ensures { OnOk result (faults.new.items
        ≡ faults.old.items ++ numeric_collected data_type (entry_view entry.now)) }
{
    let section = entry.section;
    let limits = limits_of(entry, data_type);
    attempt!(add_unread_limit(faults, section, data_type, b"LowLimit"));
    attempt!(add_unread_limit(faults, section, data_type, b"HighLimit"));
    attempt!(add_limit(faults, section, b"LowLimit", limits.is_low_bad));
    attempt!(add_limit(faults, section, b"HighLimit", limits.is_high_bad));
    attempt!(add_default(faults, entry, data_type, &limits, b"DefaultValue"));
    add_default(faults, entry, data_type, &limits, b"ParameterValue")
}

// adds the default at a key of an OCTET_STRING, where it isn't pairs of digits
fn add_pairs(
    faults: &mut Vec<SheetFault>,
    entry: &EntrySection,
    data_type: DataType,
    name: &[u8],
) -> Result<(), AllocError>
    requires other { is_numeric data_type ≡ false }
    requires read { data_type_of (entry_view entry.now) ≡ Some data_type }
    ensures { OnOk result (faults.new.items
        ≡ faults.old.items ++ at_key (default_found_at (entry_view entry.now)) name.now
        (section_view entry.now.section.now)) }
{
    let Some(given) = entry.section.property(name) else {
        return Ok(());
    };
    let is_bad = matches!(data_type, DataType::OctetString) && !is_pairs(given.value);
    add_if(faults, is_bad, FaultKind::BadDefault, given.line)
}

// the limits and the defaults
fn add_values(
    faults: &mut Vec<SheetFault>,
    entry: &EntrySection,
    data_type: DataType,
) -> Result<(), AllocError>
    requires { data_type_of (entry_view entry.now) ≡ Some data_type }
    ensures { OnOk result (faults.new.items
        ≡ faults.old.items ++ values_at data_type (entry_view entry.now)) }
{
    if data_type.width().is_some() {
        return add_numeric(faults, entry, data_type);
    }
    attempt!(add_pairs(faults, entry, data_type, b"DefaultValue"));
    add_pairs(faults, entry, data_type, b"ParameterValue")
}

// the data type, where it is one that is supported
fn data_type_of(entry: &EntrySection) -> Option<DataType>
    ensures { result ≡ data_type_of (entry_view entry.now) }
{
    match type_code(entry) {
        Some(code) => data_type_with(code),
        None => None,
    }
}

// adds the limits and the defaults that are at fault, where the data type isn't
fn add_typed_values(faults: &mut Vec<SheetFault>, entry: &EntrySection) -> Result<(), AllocError>
    ensures { OnOk result (faults.new.items
        ≡ faults.old.items ++ of_sound_type values_collected (entry_view entry.now)) }
{
    if is_type_bad(entry) {
        return Ok(());
    }
    match data_type_of(entry) {
        Some(data_type) => add_values(faults, entry, data_type),
        None => Ok(()),
    }
}

/// Adds all faults of an entry (CiA 306, object description).
pub(crate) fn add_entry(
    faults: &mut Vec<SheetFault>,
    entry: &EntrySection,
) -> Result<(), AllocError>
    ensures { OnOk result
        (faults.new.items ≡ faults.old.items ++ entry_collected (entry_view entry.now)) }
{
    attempt!(add_missing_key(faults, entry));
    attempt!(add_type(faults, entry));
    attempt!(add_unread_at(faults, entry.section, b"PDOMapping"));
    attempt!(add_access(faults, entry));
    add_typed_values(faults, entry)
}
