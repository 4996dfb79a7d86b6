//! How many bytes an entry has room for, and its limits.

ghost use Rattle.std.specs.Prelude.{◌≡◌, ◌≤◌, length};
ghost use Rattle.co_sheet.specs.Views.{default_view};
ghost use Rattle.co_sheet.specs.SheetViews.{row_view};
ghost use Rattle.co_dict_build.specs.Capacities.{
  limits_view,
  configured,
  default_bytes,
  is_read_only,
  string_capacity,
  capacity_of,
};
ghost use Rattle.co_sheet.specs.SheetLaws.{limit_or};
ghost use Rattle.co_dict_build.specs.EntryLimits.{row_in};

use crate::limits::Limits;
use co_dict::Row;
use co_sheet::{Access, EntryRow, Preset};
use co_value::{DataType, Key};

// the length of a string's default
fn default_len(default: &Preset<'_>) -> usize
    ensures { result ≡ length (default_bytes (default_view default.now)) }
{
    match *default {
        Preset::Text(bytes) => bytes.len(),
        Preset::Pairs(digits) => digits.len() / 2,
        Preset::Absent | Preset::Number(_) | Preset::NodeId(_) => 0,
    }
}

fn is_read_only(access: Access) -> bool
    ensures { result ≡ is_read_only access }
{
    matches!(access, Access::Ro | Access::Constant)
}

// a limit that the sheet states, else the end of the type; 0 where the type has none
pub(crate) fn limit_or(stated: Option<i128>, end: Option<i128>) -> i128
    ensures { result ≡ limit_or stated end }
{
    match end {
        Some(end) => stated.unwrap_or(end),
        None => 0,
    }
}

impl Limits<'_> {
    // the room that is configured for an entry: its own, of equal keys the first; else that of its
    // kind
    fn configured(&self, key: Key, of_kind: u16) -> u16
        ensures { result ≡ configured self.now.own.now key of_kind }
    {
        match self.own.iter().find(|limit| limit.0 == key) {
            Some(limit) => limit.1,
            None => of_kind,
        }
    }

    fn string_capacity(&self, row: &EntryRow<'_>) -> u16
        requires { length (default_bytes (row_view row.now).default) ≤ 65535 }
        ensures { result ≡ string_capacity (limits_view self.now) (row_view row.now) }
    {
        let default = default_len(&row.default) as u16;
        if is_read_only(row.access) {
            default
        } else {
            default.max(self.configured(row.key, self.strings))
        }
    }

    /// How many bytes an entry of a data sheet has room for.
    pub(crate) fn capacity(&self, row: &EntryRow<'_>) -> u16
        requires { length (default_bytes (row_view row.now).default) ≤ 65535 }
        ensures { result ≡ capacity_of (limits_view self.now) (row_view row.now) }
    {
        match row.data_type {
            DataType::VisibleString | DataType::OctetString => self.string_capacity(row),
            DataType::Domain => self.configured(row.key, self.domains),
            numeric => match numeric.width() {
                Some(width) => width as u16,
                None => 0,
            },
        }
    }

    /// What the dictionary knows of an entry of a data sheet.
    pub(crate) fn row(&self, row: &EntryRow<'_>) -> Row
        requires { length (default_bytes (row_view row.now).default) ≤ 65535 }
        ensures { result ≡ row_in (limits_view self.now) (row_view row.now) }
    {
        Row {
            data_type: row.data_type,
            access: row.access,
            low: limit_or(row.low, row.data_type.least()),
            high: limit_or(row.high, row.data_type.greatest()),
            capacity: self.capacity(row),
            mappable: row.mappable,
        }
    }
}
