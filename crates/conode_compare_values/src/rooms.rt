//! How much room entries have whose values have no fixed length: a data sheet doesn't say.

ghost use Rattle.std.specs.Prelude.{◌≡◌, max, option_map};
ghost use Rattle.co_sheet.specs.SheetViews.{row_view};
ghost use Rattle.co_sheet.specs.Views.{default_view};
ghost use Rattle.conode_compare_values.specs.SheetValues.{
  default_length,
  least_bytes,
  room_by,
  room_mismatch,
  room_of,
};

use crate::downloads::is_read_only;
use crate::mismatch::Mismatch;
use co_sheet::EntryRow;
use co_sheet_rows::Preset;
use co_value::DataType;
use conode_explain_transfers::{Ended, Protocol};

/// The room that entries without a fixed length have, in bytes; `None`: it isn't known.
#[derive(Clone, Copy)]
pub struct Rooms {
    /// Of each string that may be written. A longer default makes more room.
    pub strings: Option<u16>,
    /// Of each DOMAIN.
    pub domains: Option<u16>,
}

// how many bytes a string's default has
fn default_length(default: &Preset<'_>) -> usize
    ensures { result ≡ default_length (default_view default.now) }
{
    match *default {
        Preset::Text(bytes) => bytes.len(),
        Preset::Pairs(digits) => digits.len() / 2,
        Preset::Absent | Preset::Number(_) | Preset::NodeId(_) => 0,
    }
}

// how many bytes of a download count at least
fn least_bytes(protocol: Protocol, count: u64) -> u64
    ensures { result ≡ least_bytes protocol count }
{
    match protocol {
        Protocol::Block => count,
        Protocol::Segmented => {
            if count % 7 == 0 {
                count.saturating_sub(6)
            } else {
                count
            }
        }
        _ => { if count < 4 { count } else { 0 } }
    }
}

// the room of a string that can be written, where this one is given, and one for a default of so many
// bytes
fn string_room(default: usize, room: Option<u16>) -> Option<u64>
    ensures { result ≡ option_map (max default) room }
{
    match room {
        Some(room) => Some((default as u64).max(room as u64)),
        None => None,
    }
}

fn domain_room(room: Option<u16>) -> Option<u64>
    ensures { result ≡ room }
{
    match room {
        Some(room) => Some(room as u64),
        None => None,
    }
}

impl Rooms {
    // the room of an entry that can be written, by its type
    fn by_type(&self, row: &EntryRow<'_>) -> Option<u64>
        ensures { result ≡ room_by self.now (row_view row.now) row.now.data_type }
    {
        match row.data_type {
            DataType::VisibleString | DataType::OctetString => {
                string_room(default_length(&row.default), self.strings)
            }
            DataType::Domain => domain_room(self.domains),
            _ => None,
        }
    }

    // the room of an entry, where it is known
    fn room(&self, row: &EntryRow<'_>) -> Option<u64>
        ensures { result ≡ room_of self.now (row_view row.now) }
    {
        if row.key.index >= 0x2000 && !is_read_only(row.access) {
            self.by_type(row)
        } else {
            None
        }
    }

    /// The difference of a download that is done: it has more bytes than there is room for.
    pub(crate) fn mismatch(&self, row: &EntryRow<'_>, ended: &Ended) -> Option<Mismatch>
        ensures { result
            ≡ room_mismatch self.now (row_view row.now) ended.now.protocol ended.now.bytes }
    {
        match self.room(row) {
            Some(room) if room < least_bytes(ended.protocol, ended.bytes) => {
                Some(Mismatch::BeyondRoom(row.key, ended.bytes, room))
            }
            _ => None,
        }
    }
}
