//! An entry of a node's sheet with its value, and what that means: of a drive (CiA 402), of a
//! COB-ID, and of an entry with several parts.

ghost use Rattle.std.specs.Prelude.{◌≡◌, ◌++◌, OnOk, string_bytes};
ghost use Rattle.co_sheet.specs.SheetViews.{row_view};
ghost use Rattle.conode_explain_values.specs.Values.{HasBits};
ghost use Rattle.conode_explain_cob_ids.specs.Devices.{device_view};
ghost use Rattle.conode_explain_pdo.specs.KnownEntries.{known_text, shows_meaning};

use crate::cob_id_words::push_cob_id;
use crate::entry_words::push_entry_words;
use crate::value_type::type_in;
use co_sheet::EntryRow;
use co_sheet_changes::shown_name;
use co_value::Key;
use conode_explain_cob_ids::{Device, is_node_drive};
use conode_explain_services::{has_meaning, push_drive};
use conode_explain_values::push_entry;
use std::alloc::AllocError;

// The sheet is asked last, since few entries have a meaning.
fn shows_meaning(device: Device<'_, '_>, node: u8, key: Key, bits: usize) -> bool
    ensures { result ≡ shows_meaning (device_view device.entry) node key bits }
{
    has_meaning(key) && bits % 8 == 0 && is_node_drive(device, node)
}

/// Appends an entry of a node's sheet with its value, and where the device is a drive what that
/// means: `Statusword 6041:00 = 1079 (operation enabled, target reached)`; of a COB-ID its
/// hexadecimal digits, and of an entry with several parts these. On an `Err` memory ran out, and a
/// part of it may be there.
#[tactic(auto, unfolding(crate::specs::KnownEntries::known_text))]
pub fn push_known(
    text: &mut String,
    device: Device<'_, '_>,
    node: u8,
    key: Key,
    row: &EntryRow<'_>,
    bits: usize,
    bytes: &[u8],
) -> Result<(), AllocError>
    requires { HasBits bits bytes.now }
    ensures { OnOk result (string_bytes text.new ≡ string_bytes text.old
        ++ known_text (device_view device.entry) node key (row_view row.now) bits bytes.now) }
{
    let value_type = type_in(device.names, row);
    attempt!(push_entry(text, shown_name(row), key, value_type, bits, bytes));
    if shows_meaning(device, node, key, bits) {
        return push_drive(text, key, bytes);
    }
    attempt!(push_cob_id(text, key, bits, bytes));
    push_entry_words(text, key, bits, bytes)
}
