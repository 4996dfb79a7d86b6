//! Warnings: that a device is of another version than its data sheet, that the code of an EMCY has
//! no class.

ghost use Rattle.std.specs.Prelude.{◌≡◌, true, map};
ghost use Rattle.std.specs.List.{AllPairs};
ghost use Rattle.co_sheet.specs.SheetViews.{row_view};
ghost use Rattle.co_sheet.specs.Views.{default_view};
ghost use Rattle.co_value.specs.Keys.{is_key_before};
ghost use Rattle.conode_compare_notes.specs.Versions.{
  code_warning,
  has_class,
  is_read,
  is_revision,
  is_text,
  is_type,
  revision_shown,
  revision_warning,
  shows_other,
  text_warning,
  type_shown,
  type_warning,
  version_at,
  version_warning,
};

use crate::contents::is_exact;
use crate::warning::Warning;
use co_profile::{DEVICE_TYPE, IDENTITY};
use co_sheet::EntryRow;
use co_sheet_changes::row_at;
use co_sheet_rows::Preset;
use co_value::Key;
use conode_compare_pdos::number_of;
use conode_compare_values::{is_comparable, is_other_text, profile_in, shown_number};
use conode_explain_transfers::{Direction, Ended, Ending, Protocol};

// the revision number (CiA 301, 7.5.2.21)
fn is_revision(key: Key) -> bool
    ensures { result ≡ is_revision key }
{
    key.index == IDENTITY && key.sub == 3
}

// the device type (CiA 301, 7.5.2.1)
fn is_type(key: Key) -> bool
    ensures { result ≡ is_type key }
{
    key.index == DEVICE_TYPE && key.sub == 0
}

// the device's name, the versions of hardware and software (CiA 301, 7.5.2.8 to 7.5.2.10)
fn is_text(key: Key) -> bool
    ensures { result ≡ is_text key }
{
    0x1008 <= key.index && key.index <= 0x100A && key.sub == 0
}

// another revision number than the data sheet's
fn revision_shown(node: u8, row: &EntryRow<'_>, shown: u64) -> Option<Warning>
    ensures { result ≡ revision_shown node (row_view row.now) shown }
{
    match number_of(node, row.default) {
        Some(sheet) if shown != sheet => Some(Warning::OtherRevision(row.key, shown, sheet)),
        _ => None,
    }
}

fn revision_warning(node: u8, ended: &Ended, row: &EntryRow<'_>) -> Option<Warning>
    ensures { result ≡ revision_warning node ended.now (row_view row.now) }
{
    let Some(shown) = shown_number(4, ended.first.as_slice()) else {
        return None;
    };
    revision_shown(node, row, shown)
}

// another device type than the data sheet's, of the same device profile; of another profile it is
// the difference `value-const`
fn type_shown(node: u8, row: &EntryRow<'_>, shown: u64) -> Option<Warning>
    ensures { result ≡ type_shown node (row_view row.now) shown }
{
    match number_of(node, row.default) {
        Some(sheet) if profile_in(shown) == profile_in(sheet) && shown != sheet => {
            Some(Warning::OtherRevision(row.key, shown, sheet))
        }
        _ => None,
    }
}

fn type_warning(node: u8, ended: &Ended, row: &EntryRow<'_>) -> Option<Warning>
    ensures { result ≡ type_warning node ended.now (row_view row.now) }
{
    let Some(shown) = shown_number(4, ended.first.as_slice()) else {
        return None;
    };
    type_shown(node, row, shown)
}

// whether a transfer shows another text than this one of the data sheet, if that can be compared
fn shows_other(ended: &Ended, bytes: &[u8]) -> bool
    ensures { result ≡ shows_other ended.now bytes.now }
{
    let exact = is_exact(ended.protocol, ended.bytes);
    is_comparable(bytes) && is_other_text(exact, bytes, ended.first.as_slice())
}

// another text than the data sheet's, where that has one
fn text_warning(ended: &Ended, default: Preset<'_>) -> Option<Warning>
    ensures { result ≡ text_warning ended.now (default_view default.entry) }
{
    match default {
        Preset::Text(bytes) if shows_other(ended, bytes) => Some(Warning::OtherText(ended.key)),
        _ => None,
    }
}

// By the entry of an upload. Modules decide what the device type of a modular device is; in one
// frame a text may come without its length.
fn version_at(node: u8, modular: bool, ended: &Ended, row: &EntryRow<'_>) -> Option<Warning>
    ensures { result ≡ version_at node modular ended.now (row_view row.now) }
{
    if is_revision(row.key) {
        return revision_warning(node, ended, row);
    }
    if is_type(row.key) && !modular {
        return type_warning(node, ended, row);
    }
    if is_text(row.key) && !matches!(ended.protocol, Protocol::Expedited) {
        return text_warning(ended, row.default);
    }
    None
}

// whether a transfer is an upload that is done
fn is_read(ended: &Ended) -> bool
    ensures { result ≡ is_read ended.now.direction ended.now.ending }
{
    matches!(
        (ended.direction, ended.ending),
        (Direction::Upload, Ending::Done { crc: _ })
    )
}

/// Whether an upload that is done shows another version than the data sheet, whose entries are in
/// increasing key, where no earlier request can be answered. `modular`: modules decide which entries
/// the device has.
pub(crate) fn version_warning(
    node: u8,
    modular: bool,
    rows: &[EntryRow<'_>],
    certain: bool,
    ended: &Ended,
) -> Option<Warning>
    requires { AllPairs (λ e f. is_key_before e.key f.key ≡ true) rows.now }
    ensures { result ≡ version_warning node modular (map row_view rows.now) certain ended.now }
{
    if !certain || !is_read(ended) {
        return None;
    }
    let Some(row) = row_at(rows, ended.key) else {
        return None;
    };
    version_at(node, modular, ended, row)
}

// Whether the code of an EMCY has a class: 00xxh; 1xxxh to 9xxxh, with those of device profiles;
// Fxxxh.
fn has_class(code: u16) -> bool
    ensures { result ≡ has_class code }
{
    code < 0x100 || (0x1000 <= code && code < 0xA000) || 0xF000 <= code
}

/// Whether the code of an EMCY has no class; `emergencies`: the frame is known to be an EMCY of the
/// device.
pub(crate) fn code_warning(emergencies: bool, code: u16, register: u8) -> Option<Warning>
    ensures { result ≡ code_warning emergencies code register }
{
    if emergencies && !has_class(code) {
        Some(Warning::OddCode(code, register))
    } else {
        None
    }
}
