//! The end of a transfer, compared with the row of its entry in the data sheet.

ghost use Rattle.std.specs.Prelude.{◌≡◌, ◌≤◌, true, map};
ghost use Rattle.std.specs.List.{AllPairs, list_all};
ghost use Rattle.co_sheet.specs.SheetViews.{row_view};
ghost use Rattle.co_value.specs.Keys.{is_key_before};
ghost use Rattle.conode_compare_values.specs.SheetValues.{
  begins_with,
  byte_of,
  constant_mismatch,
  denies,
  has_room,
  has_width,
  held_number,
  is_boolean,
  is_by_modules,
  is_comparable,
  is_first,
  is_held,
  is_its_own,
  is_held_text,
  is_mandatory,
  is_other_boolean,
  is_other_number,
  is_other_text,
  is_other_value,
  is_printed,
  is_readable,
  is_stored,
  is_version,
  is_visible,
  long_mismatch,
  mismatch_at,
  number_mismatch,
  profile_in,
  read_mismatch,
  refused_mismatch,
  row_mismatch,
  served_mismatch,
  shown_number,
  text_mismatch,
  unless_modules,
  value_mismatch,
  width_mismatch,
};

use crate::downloads::download_mismatch;
use crate::mismatch::Mismatch;
use crate::rooms::Rooms;
use co_frame::AbortCode;
use co_profile::{
    Access, DEVICE_TYPE, ERROR_FIELD, ERROR_REGISTER, IDENTITY, IndexRange, RESTORE_PARAMETERS,
    STORE_PARAMETERS,
};
use co_sheet::EntryRow;
use co_sheet_changes::row_at;
use co_sheet_rows::Preset;
use co_value::{DataType, Key, unsigned_of};
use conode_compare_pdos::number_of;
use conode_explain_transfers::{Direction, Ended, Ending, Protocol, Side};

// of a transfer's bytes so many are kept
const KEPT: usize = 64;

/// Whether an entry with this access can be read.
pub fn is_readable(access: Access) -> bool
    ensures { result ≡ is_readable access }
{
    !matches!(access, Access::Wo)
}

// whether a value is the device's own, whatever the data sheet says
fn is_its_own(index: u16) -> bool
    ensures { result ≡ is_its_own index }
{
    index == ERROR_REGISTER || index == ERROR_FIELD || index == IndexRange::SDO_SERVER.0
}

/// Whether the value of an entry is compared with the data sheet.
pub fn is_held(row: &EntryRow<'_>) -> bool
    ensures { result ≡ is_held (row_view row.now) }
{
    let is_constant = matches!(row.access, Access::Constant);
    if row.key.index == IDENTITY {
        return row.key.sub == 1 || row.key.sub == 2 || (row.key.sub == 0 && is_constant);
    }
    row.key.index == DEVICE_TYPE || (is_constant && !is_its_own(row.key.index))
}

// the number in the data sheet, if values are compared with it
fn held_number(node: u8, row: &EntryRow<'_>) -> Option<u64>
    ensures { result ≡ held_number node (row_view row.now) }
{
    if is_held(row) {
        number_of(node, row.default)
    } else {
        None
    }
}

// whether so many bytes have room for the value, and for up to six that don't count
fn has_room(width: usize, count: u64) -> bool
    requires { width ≤ 8 }
    ensures { result ≡ has_room width count }
{
    let width = width as u64;
    width <= count && count <= width + 6
}

/// The number that the first bytes are, up to eight; up to six more may come that don't count.
pub fn shown_number(width: usize, bytes: &[u8]) -> Option<u64>
    ensures { result ≡ shown_number width bytes.now }
{
    if width <= 8 && has_room(width, bytes.len() as u64) {
        Some(unsigned_of(&bytes[..width]))
    } else {
        None
    }
}

/// Whether a type is BOOLEAN.
pub(crate) fn is_boolean(data_type: DataType) -> bool
    ensures { result ≡ is_boolean data_type }
{
    matches!(data_type, DataType::Boolean)
}

// whether the byte of a BOOLEAN is another than the data sheet's, whether its lowest bit counts alone
// or all of its bits
fn is_other_boolean(shown: u64, held: u64) -> bool
    ensures { result ≡ is_other_boolean shown held }
{
    if held == 0 {
        shown % 2 == 1
    } else {
        shown == 0
    }
}

fn is_other_number(data_type: DataType, shown: u64, held: u64) -> bool
    ensures { result ≡ is_other_number data_type shown held }
{
    if is_boolean(data_type) {
        is_other_boolean(shown, held)
    } else {
        shown != held
    }
}

/// The device profile of a device type: its lower 16 bits. The upper ones are additional information
/// of that profile, as which kinds of inputs are plugged in, or of which kind a drive is (CiA 301,
/// 7.5.2.1).
pub fn profile_in(word: u64) -> u64
    ensures { result ≡ profile_in word }
{
    word % 0x1_0000
}

fn is_other_value(row: &EntryRow<'_>, shown: u64, held: u64) -> bool
    ensures { result ≡ is_other_value (row_view row.now) shown held }
{
    if row.key.index == DEVICE_TYPE {
        profile_in(shown) != profile_in(held)
    } else {
        is_other_number(row.data_type, shown, held)
    }
}

// the difference of a value that was uploaded
fn constant_mismatch(row: &EntryRow<'_>, shown: Option<u64>, held: Option<u64>) -> Option<Mismatch>
    ensures { result ≡ constant_mismatch (row_view row.now) shown held }
{
    match (shown, held) {
        (Some(shown), Some(held)) if is_other_value(row, shown, held) => {
            Some(Mismatch::ValueConst(row.key, shown, held))
        }
        _ => None,
    }
}

// The difference of an expedited upload of a number, with its size or without. One has as many
// bytes as its type.
fn number_mismatch(
    node: u8,
    row: &EntryRow<'_>,
    indicated: bool,
    bytes: &[u8],
    width: usize,
) -> Option<Mismatch>
    requires { width ≤ 8 }
    ensures { result ≡ number_mismatch node (row_view row.now) indicated bytes.now width }
{
    if width > 4 || (indicated && width != bytes.len()) {
        return Some(Mismatch::ValueLength(row.key, bytes.len() as u64, width as u8));
    }
    constant_mismatch(row, shown_number(width, bytes), held_number(node, row))
}

fn has_width(exact: bool, width: usize, count: u64) -> bool
    requires { width ≤ 8 }
    ensures { result ≡ has_width exact width count }
{
    if exact {
        width as u64 == count
    } else {
        has_room(width, count)
    }
}

// the difference of one in segments or blocks, of so many bytes, the first of which are these
fn long_mismatch(
    node: u8,
    row: &EntryRow<'_>,
    exact: bool,
    count: u64,
    bytes: &[u8],
    width: usize,
) -> Option<Mismatch>
    requires { width ≤ 8 }
    ensures { result ≡ long_mismatch node (row_view row.now) exact count bytes.now width }
{
    if has_width(exact, width, count) {
        constant_mismatch(row, shown_number(width, bytes), held_number(node, row))
    } else {
        Some(Mismatch::ValueLength(row.key, count, width as u8))
    }
}

// the difference of an upload of a number, whose type has so many bytes
fn width_mismatch(
    node: u8,
    row: &EntryRow<'_>,
    exact: bool,
    ended: &Ended,
    width: usize,
) -> Option<Mismatch>
    requires { width ≤ 8 }
    ensures { result ≡ width_mismatch node (row_view row.now) exact ended.now.protocol
        ended.now.bytes ended.now.first.items width }
{
    let bytes = ended.first.as_slice();
    match ended.protocol {
        Protocol::Expedited => number_mismatch(node, row, exact, bytes, width),
        _ => long_mismatch(node, row, exact, ended.bytes, bytes, width),
    }
}

// the device's name, the versions of hardware and software (CiA 301, 7.5.2.8 to 7.5.2.10)
fn is_version(key: Key) -> bool
    ensures { result ≡ is_version key }
{
    0x1008 <= key.index && key.index <= 0x100A
}

fn is_visible(byte: u8) -> bool
    ensures { result ≡ is_visible byte }
{
    0x20 < byte && byte < 0x7F
}

fn is_printed(byte: u8) -> bool
    ensures { result ≡ is_printed byte }
{
    0x20 <= byte && byte < 0x7F
}

// a byte of several, 0 where there is none
fn byte_of(bytes: &[u8], place: usize) -> u8
    ensures { result ≡ byte_of bytes.now place }
{
    match bytes.get(place) {
        Some(byte) => *byte,
        None => 0,
    }
}

// whether a text of a data sheet may begin so: one in quotes may be meant without them
fn is_first(byte: u8) -> bool
    ensures { result ≡ is_first byte }
{
    is_visible(byte) && (byte != b'"' && byte != b'\'')
}

fn all_printed(bytes: &[u8]) -> bool
    ensures { result ≡ list_all is_printed bytes.now }
{
    bytes.iter().all(|byte| is_printed(*byte))
}

/// Whether a text of the data sheet can be compared.
pub fn is_comparable(bytes: &[u8]) -> bool
    ensures { result ≡ is_comparable bytes.now }
{
    bytes.len() <= KEPT && (all_printed(bytes) && is_first(byte_of(bytes, 0)))
}

fn begins_with(bytes: &[u8], shown: &[u8]) -> bool
    ensures { result ≡ begins_with bytes.now shown.now }
{
    bytes.len() <= shown.len() && &shown[..bytes.len()] == bytes
}

/// Whether another text is shown. A data sheet has no blanks at either end, and a device may add
/// zeros; `exact`: it is known how many of the bytes that are shown count.
pub fn is_other_text(exact: bool, bytes: &[u8], shown: &[u8]) -> bool
    ensures { result ≡ is_other_text exact bytes.now shown.now }
{
    byte_of(shown, 0) != b' '
        && (!begins_with(bytes, shown) || (exact && is_visible(byte_of(shown, bytes.len()))))
}

fn is_held_text(row: &EntryRow<'_>) -> bool
    ensures { result ≡ is_held_text (row_view row.now) }
{
    matches!(row.access, Access::Constant) && !is_version(row.key)
}

// the difference of an upload of a text
fn text_mismatch(row: &EntryRow<'_>, exact: bool, shown: &[u8]) -> Option<Mismatch>
    ensures { result ≡ text_mismatch (row_view row.now) exact shown.now }
{
    match row.default {
        Preset::Text(bytes)
            if is_held_text(row) && is_comparable(bytes) && is_other_text(exact, bytes, shown) => {
            Some(Mismatch::ConstText(row.key))
        }
        _ => None,
    }
}

// Each object has its sub-index 0, and the identity a vendor-ID (CiA 301, 7.5.2.21). Another
// sub-index may be missing where the number of them varies.
fn is_mandatory(key: Key) -> bool
    ensures { result ≡ is_mandatory key }
{
    key.sub == 0 || (key.index == IDENTITY && key.sub == 1)
}

// a code that says that the entry can't be read at all
fn denies(key: Key, code: AbortCode) -> bool
    ensures { result ≡ denies key code.0 }
{
    code == AbortCode::WRITE_ONLY
        || (is_mandatory(key)
            && (code == AbortCode::OBJECT_MISSING || code == AbortCode::SUB_INDEX_MISSING))
}

// the difference of an upload that is refused; modules decide which entries a modular device has
fn refused_mismatch(modular: bool, row: &EntryRow<'_>, code: AbortCode) -> Option<Mismatch>
    ensures { result ≡ refused_mismatch modular (row_view row.now) code }
{
    if !modular && denies(row.key, code) && is_readable(row.access) {
        Some(Mismatch::ReadRefused(row.key, code))
    } else {
        None
    }
}

// the difference of an upload that is done
#[tactic(auto, unfolding(crate::specs::SheetValues::value_mismatch))]
fn value_mismatch(node: u8, row: &EntryRow<'_>, exact: bool, ended: &Ended) -> Option<Mismatch>
    ensures { result ≡ value_mismatch node (row_view row.now) exact ended.now }
{
    match row.data_type.width() {
        Some(width) => width_mismatch(node, row, exact, ended, width),
        None => text_mismatch(row, exact, ended.first.as_slice()),
    }
}

// whether modules decide about a difference, as about the device type of a modular device
fn is_by_modules(mismatch: Mismatch) -> bool
    ensures { result ≡ is_by_modules mismatch }
{
    match mismatch {
        Mismatch::ValueConst(key, _, _) => key.index == DEVICE_TYPE,
        _ => false,
    }
}

fn unless_modules(modular: bool, found: Option<Mismatch>) -> Option<Mismatch>
    ensures { result ≡ unless_modules modular found }
{
    match found {
        Some(mismatch) if modular && is_by_modules(mismatch) => None,
        _ => found,
    }
}

/// Whether an object is 1010h or 1011h, of which a client reads what the device can store and
/// restore, whatever the data sheet says.
pub fn is_stored(index: u16) -> bool
    ensures { result ≡ is_stored index }
{
    index == STORE_PARAMETERS || index == RESTORE_PARAMETERS
}

// the difference of an upload that is done, of an entry that is write only
fn served_mismatch(modular: bool, row: &EntryRow<'_>) -> Option<Mismatch>
    ensures { result ≡ served_mismatch modular (row_view row.now) }
{
    if modular || is_stored(row.key.index) {
        None
    } else {
        Some(Mismatch::ReadServed(row.key))
    }
}

// the difference of an upload that is done, of a device that may be modular
fn read_mismatch(
    node: u8,
    modular: bool,
    row: &EntryRow<'_>,
    exact: bool,
    ended: &Ended,
) -> Option<Mismatch>
    ensures { result ≡ read_mismatch node modular (row_view row.now) exact ended.now }
{
    if is_readable(row.access) {
        unless_modules(modular, value_mismatch(node, row, exact, ended))
    } else {
        served_mismatch(modular, row)
    }
}

// the difference of the end of a transfer of an entry
#[tactic(auto, unfolding(crate::specs::SheetValues::row_mismatch))]
fn row_mismatch(
    node: u8,
    modular: bool,
    rooms: Rooms,
    row: &EntryRow<'_>,
    exact: bool,
    ended: &Ended,
) -> Option<Mismatch>
    ensures { result ≡ row_mismatch node modular rooms (row_view row.now) exact ended.now }
{
    match (ended.direction, ended.ending) {
        (Direction::Upload, Ending::Done { crc: _ }) => {
            read_mismatch(node, modular, row, exact, ended)
        }
        (Direction::Download, Ending::Done { crc: _ }) => download_mismatch(rooms, row, ended),
        (
            Direction::Upload,
            Ending::Aborted {
                by: Side::Server,
                code,
            },
        ) => refused_mismatch(modular, row, code),
        _ => None,
    }
}

/// The difference of the end of a transfer of the device with a node-ID, by its data sheet, whose
/// entries are in increasing key. `modular`: modules decide which entries it has. `rooms`: what is
/// known of their room. `exact`: an upload shows how many of its bytes count.
#[tactic(auto, unfolding(crate::specs::SheetValues::mismatch_at))]
pub fn mismatch_at(
    node: u8,
    modular: bool,
    rooms: Rooms,
    rows: &[EntryRow<'_>],
    exact: bool,
    ended: &Ended,
) -> Option<Mismatch>
    requires { AllPairs (λ e f. is_key_before e.key f.key ≡ true) rows.now }
    ensures { result ≡ mismatch_at node modular rooms (map row_view rows.now) exact ended.now }
{
    let row = row_at(rows, ended.key)?;
    row_mismatch(node, modular, rooms, row, exact, ended)
}
