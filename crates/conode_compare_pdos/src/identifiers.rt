//! Which identifiers the TPDOs of a device may have: all of them, from 1800h to 19FFh (CiA 301,
//! 7.3.5 and 7.5.2.37).

ghost use Rattle.std.specs.Prelude.{◌≡◌, map};
ghost use Rattle.co_sheet.specs.SheetViews.{row_view};
ghost use Rattle.conode_compare_pdos.specs.Identifiers.{
  is_cob_id,
  may_be,
  may_change,
  may_change_at,
  may_get,
  may_have,
  may_have_at,
};

use crate::numbers::number_of;
use crate::parameters::identifier_of;
use crate::tpdo::is_id;
use co_profile::{Access, PDO_COB_ID};
use co_sheet::EntryRow;
use co_value::Key;

// 1800:01 to 19FF:01, the COB-IDs of TPDOs
fn is_cob_id(key: Key) -> bool
    ensures { result ≡ is_cob_id key }
{
    0x1800 <= key.index && key.index < 0x1A00 && key.sub == PDO_COB_ID
}

// whether a COB-ID, where it is known, has this identifier
pub(crate) fn may_be(id: u16, number: Option<u64>) -> bool
    ensures { result ≡ may_be id number }
{
    match number {
        Some(number) => is_id(identifier_of(number), id),
        None => true,
    }
}

fn may_have_at(row: &EntryRow<'_>, node: u8, id: u16) -> bool
    ensures { result ≡ may_have_at node id (row_view row.now) }
{
    is_cob_id(row.key) && may_be(id, number_of(node, row.default))
}

/// Whether a TPDO of the device with a node-ID may have this identifier after a boot-up, by its data
/// sheet, where nothing was stored.
pub fn may_have(rows: &[EntryRow<'_>], node: u8, id: u16) -> bool
    ensures { result ≡ may_have (map row_view rows.now) node id }
{
    for row in rows {
        if may_have_at(row, node, id) {
            return true;
        }
    }
    false
}

fn may_change_at(row: &EntryRow<'_>) -> bool
    ensures { result ≡ may_change_at (row_view row.now) }
{
    is_cob_id(row.key) && !matches!(row.access, Access::Constant)
}

/// Whether the COB-ID of a TPDO may change, by the data sheet.
pub fn may_change(rows: &[EntryRow<'_>]) -> bool
    ensures { result ≡ may_change (map row_view rows.now) }
{
    for row in rows {
        if may_change_at(row) {
            return true;
        }
    }
    false
}

/// Whether a TPDO may get this identifier, where a number, if it is known, is written to an entry.
pub fn may_get(id: u16, key: Key, number: Option<u64>) -> bool
    ensures { result ≡ may_get id key number }
{
    is_cob_id(key) && may_be(id, number)
}
