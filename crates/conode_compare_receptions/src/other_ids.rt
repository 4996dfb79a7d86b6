//! Which identifiers a device has besides those of its RPDOs (CiA 301, 7.5.2).

ghost use Rattle.std.specs.Prelude.{◌≡◌, true, map};
ghost use Rattle.std.specs.List.{AllPairs, list_any};
ghost use Rattle.co_sheet.specs.SheetViews.{row_view};
ghost use Rattle.co_value.specs.Keys.{is_key_before};
ghost use Rattle.conode_compare_pdos.specs.Tpdos.{shows_bytes};
ghost use Rattle.conode_compare_receptions.specs.OtherIds.{
  emergency_id,
  id_asked,
  id_ended,
  id_given,
  id_shown,
  ids_asked,
  ids_ended,
  is_further_id,
  has_further_ids,
  may_equal,
  may_use,
  other_ids_of,
  sheet_id,
  sync_id,
  time_id,
  tpdo_id,
  unknown_ids,
};

use co_sheet::EntryRow;
use co_sheet_changes::row_at;
use co_value::Key;
use conode_compare_pdos::{first_word, number_of};
use conode_explain_transfers::{Ended, Ending, Protocol};

/// The identifiers of what else has one, by 11 bits of their COB-IDs; 0 where it has none, `None`
/// where it isn't known.
#[derive(Clone, Copy)]
pub struct OtherIds {
    /// Of SYNC (1005:00).
    pub sync: Option<u16>,
    /// Of TIME (1012:00).
    pub time: Option<u16>,
    /// Of EMCY (1014:00).
    pub emergency: Option<u16>,
    /// Of the first TPDO (1800:01).
    pub first: Option<u16>,
    /// Of the second one.
    pub second: Option<u16>,
    /// Of the third one.
    pub third: Option<u16>,
    /// Of the fourth one.
    pub fourth: Option<u16>,
}

fn sync_id() -> Key
    ensures { result ≡ sync_id }
{
    Key {
        index: 0x1005,
        sub: 0,
    }
}

fn time_id() -> Key
    ensures { result ≡ time_id }
{
    Key {
        index: 0x1012,
        sub: 0,
    }
}

fn emergency_id() -> Key
    ensures { result ≡ emergency_id }
{
    Key {
        index: 0x1014,
        sub: 0,
    }
}

fn tpdo_id(index: u16) -> Key
    ensures { result ≡ tpdo_id index }
{
    Key { index, sub: 1 }
}

// the 11 bits of a COB-ID of a data sheet
fn id_given(number: Option<u64>) -> Option<u16>
    ensures { result ≡ id_given number }
{
    match number {
        Some(number) if number % 0x800 != 0 => Some((number % 0x800) as u16),
        _ => None,
    }
}

// the identifier that a data sheet has at a key
fn sheet_id(rows: &[EntryRow<'_>], node: u8, certain: bool, key: Key) -> Option<u16>
    requires { AllPairs (λ e f. is_key_before e.key f.key ≡ true) rows.now }
    ensures { result ≡ sheet_id (map row_view rows.now) node certain key }
{
    match row_at(rows, key) {
        Some(row) if certain => id_given(number_of(node, row.default)),
        Some(_) => None,
        None => Some(0),
    }
}

// whether a row is the COB-ID of a TPDO, or of an SDO channel, that isn't followed
fn is_further_id(row: &EntryRow<'_>) -> bool
    ensures { result ≡ is_further_id (row_view row.now) }
{
    let index = row.key.index;
    ((0x1804 <= index && index < 0x1A00) || (0x1201 <= index && index < 0x1300)) && row.key.sub == 1
}

// whether a data sheet has such a COB-ID
pub(crate) fn has_further_ids(rows: &[EntryRow<'_>]) -> bool
    ensures { result ≡ has_further_ids (map row_view rows.now) }
{
    for row in rows {
        if is_further_id(row) {
            return true;
        }
    }
    false
}

// an identifier once a client asks to write an entry
fn id_asked(key: Key, own: Key, id: Option<u16>) -> Option<u16>
    ensures { result ≡ id_asked key own id }
{
    if key == own { None } else { id }
}

// the identifier that bytes are
fn id_shown(bytes: &[u8]) -> Option<u16>
    ensures { result ≡ id_shown bytes.now }
{
    match first_word(bytes) {
        Some(word) => Some(word % 0x800),
        None => None,
    }
}

// whether a transfer that ended shows the bytes of its entry
fn shows_bytes(ended: &Ended) -> bool
    ensures { result ≡ shows_bytes ended.now.protocol ended.now.ending }
{
    matches!(
        (ended.protocol, ended.ending),
        (Protocol::Expedited, Ending::Done { crc: _ })
    )
}

// an identifier once a transfer ended
fn id_ended(ended: &Ended, own: Key, id: Option<u16>) -> Option<u16>
    ensures { result ≡ id_ended ended.now own id }
{
    if ended.key == own && shows_bytes(ended) {
        id_shown(ended.first.as_slice())
    } else {
        id
    }
}

// whether an identifier may be another one
fn may_equal(id: u16, own: Option<u16>) -> bool
    ensures { result ≡ may_equal id own }
{
    match own {
        Some(own) => own == id,
        None => true,
    }
}

impl OtherIds {
    /// Nothing is known.
    pub(crate) fn unknown() -> OtherIds
        ensures { result ≡ unknown_ids }
    {
        OtherIds {
            sync: None,
            time: None,
            emergency: None,
            first: None,
            second: None,
            third: None,
            fourth: None,
        }
    }

    /// What a data sheet has, whose entries are in increasing key; `certain`: its values are in force.
    #[tactic(auto, unfolding(crate::specs::OtherIds::other_ids_of))]
    pub(crate) fn of(rows: &[EntryRow<'_>], node: u8, certain: bool) -> OtherIds
        requires { AllPairs (λ e f. is_key_before e.key f.key ≡ true) rows.now }
        ensures { result ≡ other_ids_of (map row_view rows.now) node certain }
    {
        OtherIds {
            sync: sheet_id(rows, node, certain, sync_id()),
            time: sheet_id(rows, node, certain, time_id()),
            emergency: sheet_id(rows, node, certain, emergency_id()),
            first: sheet_id(rows, node, certain, tpdo_id(0x1800)),
            second: sheet_id(rows, node, certain, tpdo_id(0x1801)),
            third: sheet_id(rows, node, certain, tpdo_id(0x1802)),
            fourth: sheet_id(rows, node, certain, tpdo_id(0x1803)),
        }
    }

    /// A download to an entry is requested.
    pub(crate) fn request(&mut self, key: Key)
        ensures { self.new ≡ ids_asked self.old key }
    {
        self.sync = id_asked(key, sync_id(), self.sync);
        self.time = id_asked(key, time_id(), self.time);
        self.emergency = id_asked(key, emergency_id(), self.emergency);
        self.first = id_asked(key, tpdo_id(0x1800), self.first);
        self.second = id_asked(key, tpdo_id(0x1801), self.second);
        self.third = id_asked(key, tpdo_id(0x1802), self.third);
        self.fourth = id_asked(key, tpdo_id(0x1803), self.fourth);
    }

    /// A transfer ended.
    pub(crate) fn transfer(&mut self, ended: &Ended)
        ensures { self.new ≡ ids_ended self.old ended.now }
    {
        self.sync = id_ended(ended, sync_id(), self.sync);
        self.time = id_ended(ended, time_id(), self.time);
        self.emergency = id_ended(ended, emergency_id(), self.emergency);
        self.first = id_ended(ended, tpdo_id(0x1800), self.first);
        self.second = id_ended(ended, tpdo_id(0x1801), self.second);
        self.third = id_ended(ended, tpdo_id(0x1802), self.third);
        self.fourth = id_ended(ended, tpdo_id(0x1803), self.fourth);
    }

    /// Whether one of them may be this one.
    pub(crate) fn may_use(&self, id: u16) -> bool
        ensures { result ≡ may_use id self.now }
    {
        may_equal(id, self.sync)
            || may_equal(id, self.time)
            || may_equal(id, self.emergency)
            || may_equal(id, self.first)
            || may_equal(id, self.second)
            || may_equal(id, self.third)
            || may_equal(id, self.fourth)
    }
}
