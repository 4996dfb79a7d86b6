//! How many entries there are, and how much room they have in all.

ghost use Rattle.std.specs.Prelude.{◌≡◌, ◌≤◌, map, length, sum_by, All};
ghost use Rattle.co_sheet.specs.SheetViews.{row_view};
ghost use Rattle.co_dict_build.specs.Capacities.{limits_view, capacity_of};
ghost use Rattle.co_dict_build.specs.BuildFaults.{is_too_many};
ghost use Rattle.co_sheet.specs.SheetLaws.{IsSheetRow};

use crate::limits::Limits;
use co_sheet::EntryRow;

const MOST_ENTRIES: usize = 16_384;

const MOST_ROOM: u64 = 16_777_216;

// the room of all entries
fn room(limits: &Limits<'_>, rows: &[EntryRow<'_>]) -> u64
    requires few { length rows.now ≤ 16384 }
    requires rows { All (λ row. IsSheetRow (row_view row)) rows.now }
    ensures { result ≡ sum_by (capacity_of (limits_view limits.now)) (map row_view rows.now) }
{
    let mut room = 0;
    for row in rows {
        room += u64::from(limits.capacity(row));
    }
    room
}

/// Whether there are more than 16,384 entries, or they have more than 16,777,216 bytes of room in
/// all: `BuildFault::TooMany`.
pub fn is_too_many(limits: &Limits<'_>, rows: &[EntryRow<'_>]) -> bool
    requires { All (λ row. IsSheetRow (row_view row)) rows.now }
    ensures { result ≡ is_too_many (length rows.now)
        (sum_by (capacity_of (limits_view limits.now)) (map row_view rows.now)) }
{
    rows.len() > MOST_ENTRIES || room(limits, rows) > MOST_ROOM
}
