//! An RPDO in a recording: its parameters, as far as the data sheet and transfers show them (CiA
//! 301, 7.5.2.35 and 7.5.2.36).

ghost use Rattle.std.specs.Prelude.{◌≡◌, Some, true, map};
ghost use Rattle.std.specs.List.{AllPairs, list_any};
ghost use Rattle.co_sheet.specs.SheetViews.{row_view};
ghost use Rattle.co_value.specs.Keys.{is_key_before};
ghost use Rattle.conode_compare_pdos.specs.Rpdos.{
  count_shown,
  double_word,
  is_immediate,
  is_object_of,
  mapped_from,
  mapped_length,
  mapping_asked,
  mapping_shown,
  maps_apart,
  may_have_object,
  may_map,
  may_receive,
  object_key,
  placed,
  rpdo_asked,
  rpdo_communication,
  rpdo_ended,
  rpdo_mapping,
  rpdo_of,
  rpdo_requested,
  rpdo_shown,
  rpdo_transferred,
  sheet_cob_id,
  sheet_inhibit,
  sheet_number,
  takes_at_once,
  unknown_rpdo,
  with_object_at,
  with_place,
};

use crate::deviation::is_event_driven;
use crate::identifiers::may_be;
use crate::numbers::{first_word, number_of, preset_at, small, tiny};
use crate::parameters::{first_byte, key_of, mapped_bytes, summed};
use crate::tpdo::shows_bytes;
use co_profile::{INHIBIT_TIME, PDO_COB_ID, TRANSMISSION_TYPE};
use co_sheet::EntryRow;
use co_sheet_changes::row_at;
use co_value::Key;
use conode_explain_transfers::{Direction, Ended};

/// How many objects are followed of a mapping.
const MOST_OBJECTS: usize = 8;

/// A COB-ID whose bit 31 is set: the PDO doesn't exist.
const NO_PDO: u64 = 0x8000_0000;

/// What is known of an RPDO.
#[derive(Clone, Copy)]
pub struct Rpdo {
    /// Its COB-ID.
    pub cob_id: Option<u64>,
    /// The transmission type.
    pub kind: Option<u8>,
    /// The inhibit time in 100 µs.
    pub inhibit: Option<u16>,
    /// How many objects are mapped.
    pub count: Option<u8>,
    /// The first eight objects of the mapping: index, sub-index, and length in bits.
    pub objects: [Option<u64>; 8],
    /// When one of its parameters was written or read last.
    pub changed: Option<u64>,
}

// the index of its communication parameter
fn rpdo_communication(number: u8) -> u16
    ensures { result ≡ rpdo_communication number }
{
    0x1400 + number as u16
}

// the index of its mapping parameter
fn rpdo_mapping(number: u8) -> u16
    ensures { result ≡ rpdo_mapping number }
{
    0x1600 + number as u16
}

// a COB-ID of a data sheet, where it has an identifier
fn placed(cob_id: Option<u64>) -> Option<u64>
    ensures { result ≡ placed cob_id }
{
    match cob_id {
        Some(cob_id) if cob_id % 0x800 != 0 => Some(cob_id),
        _ => None,
    }
}

// the COB-ID that a data sheet has; an RPDO that isn't in it doesn't exist
fn sheet_cob_id(rows: &[EntryRow<'_>], node: u8, certain: bool, index: u16) -> Option<u64>
    requires { AllPairs (λ e f. is_key_before e.key f.key ≡ true) rows.now }
    ensures { result ≡ sheet_cob_id (map row_view rows.now) node certain index }
{
    match row_at(rows, key_of(index, PDO_COB_ID)) {
        Some(row) if certain => placed(number_of(node, row.default)),
        Some(_) => None,
        None => Some(NO_PDO),
    }
}

fn sheet_inhibit(rows: &[EntryRow<'_>], node: u8, certain: bool, index: u16) -> Option<u16>
    requires { AllPairs (λ e f. is_key_before e.key f.key ≡ true) rows.now }
    ensures { result ≡ sheet_inhibit (map row_view rows.now) node certain index }
{
    match row_at(rows, key_of(index, INHIBIT_TIME)) {
        Some(row) if certain => small(number_of(node, row.default)),
        Some(_) => None,
        None => Some(0),
    }
}

fn sheet_number(rows: &[EntryRow<'_>], node: u8, certain: bool, index: u16, sub: u8) -> Option<u64>
    requires { AllPairs (λ e f. is_key_before e.key f.key ≡ true) rows.now }
    ensures { result ≡ sheet_number (map row_view rows.now) node certain index sub }
{
    if certain {
        preset_at(rows, node, key_of(index, sub))
    } else {
        None
    }
}

// the number of four bytes
fn double_word(bytes: &[u8]) -> Option<u64>
    ensures { result ≡ double_word bytes.now }
{
    match bytes {
        [a, b, c, d] => Some(
            *a as u64 + *b as u64 * 0x100 + *c as u64 * 0x1_0000 + *d as u64 * 0x100_0000,
        ),
        _ => None,
    }
}

// the bytes with those of the object at a place, where the mapping has so many
fn with_place(count: usize, place: usize, word: Option<u64>, bytes: Option<u8>) -> Option<u8>
    ensures { result ≡ with_place count place word bytes }
{
    if place >= count {
        return bytes;
    }
    match word {
        Some(word) => summed(bytes, mapped_bytes(word)),
        None => summed(bytes, None),
    }
}

/// The entry of an object of a mapping.
pub fn object_key(word: u64) -> Key
    ensures { result ≡ object_key word }
{
    Key {
        index: (word / 0x1_0000 % 0x1_0000) as u16,
        sub: (word / 0x100 % 0x100) as u8,
    }
}

/// Whether an object of a mapping, if it is known, is that of an entry.
pub fn is_object_of(key: Key, word: Option<u64>) -> bool
    ensures { result ≡ is_object_of key word }
{
    match word {
        Some(word) => object_key(word) == key,
        None => false,
    }
}

impl Rpdo {
    /// Nothing is known of it.
    pub(crate) fn unknown() -> Rpdo
        ensures { result ≡ unknown_rpdo }
    {
        Rpdo {
            cob_id: None,
            kind: None,
            inhibit: None,
            count: None,
            objects: [None; MOST_OBJECTS],
            changed: None,
        }
    }

    /// What a data sheet, whose entries are in increasing key, has of the RPDO with this number, from
    /// 0 on; `certain`: its values are in force.
    #[tactic(auto, unfolding(crate::specs::Rpdos::rpdo_of))]
    pub(crate) fn of(rows: &[EntryRow<'_>], node: u8, certain: bool, number: u8) -> Rpdo
        requires { AllPairs (λ e f. is_key_before e.key f.key ≡ true) rows.now }
        ensures { result ≡ rpdo_of (map row_view rows.now) node certain number }
    {
        let index = rpdo_communication(number);
        let mapping = rpdo_mapping(number);
        Rpdo {
            cob_id: sheet_cob_id(rows, node, certain, index),
            kind: tiny(sheet_number(rows, node, certain, index, TRANSMISSION_TYPE)),
            inhibit: sheet_inhibit(rows, node, certain, index),
            count: tiny(sheet_number(rows, node, certain, mapping, 0)),
            objects: [
                sheet_number(rows, node, certain, mapping, 1),
                sheet_number(rows, node, certain, mapping, 2),
                sheet_number(rows, node, certain, mapping, 3),
                sheet_number(rows, node, certain, mapping, 4),
                sheet_number(rows, node, certain, mapping, 5),
                sheet_number(rows, node, certain, mapping, 6),
                sheet_number(rows, node, certain, mapping, 7),
                sheet_number(rows, node, certain, mapping, 8),
            ],
            changed: None,
        }
    }

    // the object at a sub-index of the mapping
    fn set_object(&mut self, sub: u8, word: Option<u64>)
        ensures { self.new ≡ record self.old {
          objects = with_object_at self.old.objects sub word;
        } }
    {
        if 1 <= sub && sub <= 8 {
            self.objects[sub as usize - 1] = word;
        }
    }

    // A download to a sub-index of its communication parameter is requested.
    fn ask(&mut self, sub: u8)
        ensures { self.new ≡ rpdo_asked self.old sub }
    {
        match sub {
            PDO_COB_ID => self.cob_id = None,
            TRANSMISSION_TYPE => self.kind = None,
            INHIBIT_TIME => self.inhibit = None,
            _ => {}
        }
    }

    // A download to a sub-index of its mapping is requested.
    fn ask_mapping(&mut self, sub: u8)
        ensures { self.new ≡ mapping_asked self.old sub }
    {
        self.count = None;
        self.set_object(sub, None);
    }

    /// A download to an entry is requested.
    pub(crate) fn request(&mut self, number: u8, key: Key, micros: u64)
        ensures { self.new ≡ rpdo_requested key micros number self.old }
    {
        if key.index == rpdo_communication(number) {
            self.ask(key.sub);
            self.changed = Some(micros);
        } else if key.index == rpdo_mapping(number) {
            self.ask_mapping(key.sub);
            self.changed = Some(micros);
        }
    }

    // A transfer shows what a sub-index of its communication parameter has.
    fn show(&mut self, sub: u8, bytes: &[u8])
        ensures { self.new ≡ rpdo_shown self.old sub bytes.now }
    {
        match sub {
            PDO_COB_ID => self.cob_id = double_word(bytes),
            TRANSMISSION_TYPE => self.kind = first_byte(bytes),
            INHIBIT_TIME => self.inhibit = first_word(bytes),
            _ => {}
        }
    }

    // A transfer shows what a sub-index of its mapping has.
    fn show_mapping(&mut self, direction: Direction, sub: u8, bytes: &[u8])
        ensures { self.new ≡ mapping_shown self.old direction sub bytes.now }
    {
        if sub != 0 {
            self.set_object(sub, double_word(bytes));
            return;
        }
        match direction {
            Direction::Download => self.count = first_byte(bytes),
            Direction::Upload => {}
        }
    }

    /// A transfer ended.
    pub(crate) fn transfer(&mut self, number: u8, ended: &Ended, micros: u64)
        ensures { self.new ≡ rpdo_transferred ended.now micros number self.old }
    {
        if !shows_bytes(ended) {
            return;
        }
        if ended.key.index == rpdo_communication(number) {
            self.show(ended.key.sub, ended.first.as_slice());
            self.changed = Some(micros);
        } else if ended.key.index == rpdo_mapping(number) {
            self.show_mapping(ended.direction, ended.key.sub, ended.first.as_slice());
            self.changed = Some(micros);
        }
    }

    // the bytes of the first objects
    #[tactic(auto, unfolding(crate::specs::Rpdos::mapped_from))]
    fn mapped_bytes(&self, count: usize) -> Option<u8>
        ensures { result ≡ mapped_from count 0 self.now.objects (Some 0) }
    {
        let mut bytes = Some(0);
        for (place, word) in self.objects.iter().enumerate() {
            bytes = with_place(count, place, *word, bytes);
        }
        bytes
    }

    /// How many bytes are mapped: those of one to eight objects of whole bytes.
    pub fn mapped_length(&self) -> Option<u8>
        ensures { result ≡ mapped_length self.now }
    {
        match self.count {
            Some(count) if 1 <= count && count <= 8 => self.mapped_bytes(count as usize),
            _ => None,
        }
    }

    // whether the mapping may have the object of an entry: one that isn't known may be any
    fn may_have_object(&self, key: Key) -> bool
        ensures { result ≡ may_have_object self.now key self.now.count }
    {
        match self.count {
            Some(count) => 0 < count && (self.mapped_length().is_none() || self.has_object(key)),
            None => true,
        }
    }

    // whether one of the first eight objects is that of an entry
    fn has_object(&self, key: Key) -> bool
        ensures { result ≡ list_any (is_object_of key) self.now.objects }
    {
        for word in self.objects.iter() {
            if is_object_of(key, *word) {
                return true;
            }
        }
        false
    }

    // whether it may exist, and map an entry
    fn may_map(&self, key: Key) -> bool
        ensures { result ≡ may_map key self.now }
    {
        match self.cob_id {
            Some(cob_id) => cob_id < NO_PDO && self.may_have_object(key),
            None => self.may_have_object(key),
        }
    }

    // whether it isn't received with an identifier, and may map an entry
    pub(crate) fn maps_apart(&self, id: u16, key: Key) -> bool
        ensures { result ≡ maps_apart id key self.now }
    {
        !self.may_receive(id) && self.may_map(key)
    }

    /// Whether it may be received with this identifier.
    pub(crate) fn may_receive(&self, id: u16) -> bool
        ensures { result ≡ may_receive id self.now }
    {
        may_be(id, self.cob_id)
    }

    /// Whether what it receives takes effect at once: its transmission type is 254 or 255, and it has
    /// no inhibit time, whose meaning is the device's own.
    pub fn is_immediate(&self) -> bool
        ensures { result ≡ is_immediate self.now }
    {
        is_event_driven(self.kind) && self.inhibit == Some(0)
    }

    // whether it isn't received with this identifier, or what it receives takes effect at once
    pub(crate) fn takes_at_once(&self, id: u16) -> bool
        ensures { result ≡ takes_at_once id self.now }
    {
        !self.may_receive(id) || self.is_immediate()
    }
}
