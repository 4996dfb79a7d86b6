//! The parameters of a TPDO, as far as the data sheet and a recording show them (CiA 301, 7.5.2.37
//! and 7.5.2.38).

ghost use Rattle.std.specs.Prelude.{◌≡◌, ◌<◌, true, map};
ghost use Rattle.std.specs.List.{AllPairs};
ghost use Rattle.co_sheet.specs.SheetViews.{row_view};
ghost use Rattle.co_value.specs.Keys.{is_key_before};
ghost use Rattle.conode_compare_pdos.specs.PdoParameters.{
  asked_to_write,
  communication,
  counted_bytes,
  first_byte,
  identifier_of,
  key_of,
  length_of,
  mapped_bytes,
  mapping,
  nothing_known,
  parameters_of,
  shown,
  shown_identifier,
  summed,
  with_object,
};

use crate::numbers::{first_word, preset_at, time_at, tiny};
use co_profile::{EVENT_TIMER, INHIBIT_TIME, PDO_COB_ID, TRANSMISSION_TYPE};
use co_sheet::EntryRow;
use co_value::Key;

/// What is known of the parameters of a TPDO.
#[derive(Clone, Copy)]
pub struct Parameters {
    /// Its identifier, where it exists and has one of 11 bits.
    pub id: Option<u16>,
    /// The transmission type.
    pub kind: Option<u8>,
    /// The inhibit time in 100 µs.
    pub inhibit: Option<u16>,
    /// The event timer in ms; 0: none.
    pub timer: Option<u16>,
    /// How many bytes are mapped.
    pub length: Option<u8>,
}

/// The index of its communication parameter.
pub(crate) fn communication(number: u8) -> u16
    ensures { result ≡ communication number }
{
    0x1800 + number as u16
}

/// The index of its mapping parameter.
pub(crate) fn mapping(number: u8) -> u16
    ensures { result ≡ mapping number }
{
    0x1A00 + number as u16
}

pub(crate) fn key_of(index: u16, sub: u8) -> Key
    ensures { result ≡ key_of index sub }
{
    Key { index, sub }
}

/// The identifier of 11 bits in a COB-ID that is valid.
pub fn identifier_of(number: u64) -> Option<u16>
    ensures { result ≡ identifier_of number }
{
    if number < 0x8000_0000 && number / 0x2000_0000 % 2 == 0 {
        Some((number % 0x800) as u16)
    } else {
        None
    }
}

// the bytes of a mapped object, by the entry of the mapping
pub(crate) fn mapped_bytes(word: u64) -> Option<u8>
    ensures { result ≡ mapped_bytes word }
{
    let bits = word % 256;
    if bits % 8 == 0 {
        Some((bits / 8) as u8)
    } else {
        None
    }
}

// the bytes of both; a PDO has at most eight
pub(crate) fn summed(first: Option<u8>, second: Option<u8>) -> Option<u8>
    ensures { result ≡ summed first second }
{
    match (first, second) {
        (Some(first), Some(second)) if first as u16 + second as u16 <= 8 => { Some(first + second) }
        _ => None,
    }
}

// the bytes with those of one object more, where the mapping has so many
fn with_object(
    rows: &[EntryRow<'_>],
    node: u8,
    index: u16,
    count: u64,
    sub: u8,
    bytes: Option<u8>,
) -> Option<u8>
    requires { AllPairs (λ e f. is_key_before e.key f.key ≡ true) rows.now }
    ensures { result ≡ with_object (map row_view rows.now) node index count sub bytes }
{
    if sub as u64 > count {
        return bytes;
    }
    match preset_at(rows, node, key_of(index, sub)) {
        Some(word) => summed(bytes, mapped_bytes(word)),
        None => None,
    }
}

// the bytes of the first objects of a mapping, at most eight
#[tactic(auto, unfolding(crate::specs::PdoParameters::counted_bytes))]
fn counted_bytes(rows: &[EntryRow<'_>], node: u8, index: u16, count: u64) -> Option<u8>
    requires { AllPairs (λ e f. is_key_before e.key f.key ≡ true) rows.now }
    ensures { result ≡ counted_bytes (map row_view rows.now) node index count }
{
    let one = with_object(rows, node, index, count, 1, Some(0));
    let two = with_object(rows, node, index, count, 2, one);
    let three = with_object(rows, node, index, count, 3, two);
    let four = with_object(rows, node, index, count, 4, three);
    let five = with_object(rows, node, index, count, 5, four);
    let six = with_object(rows, node, index, count, 6, five);
    let seven = with_object(rows, node, index, count, 7, six);
    with_object(rows, node, index, count, 8, seven)
}

/// How many bytes a mapping parameter of the data sheet, whose entries are in increasing key, maps;
/// `None` where it maps nothing, more than eight bytes, or parts of a byte.
#[tactic(auto, unfolding(crate::specs::PdoParameters::length_of))]
pub fn length_of(rows: &[EntryRow<'_>], node: u8, index: u16) -> Option<u8>
    requires { AllPairs (λ e f. is_key_before e.key f.key ≡ true) rows.now }
    ensures { result ≡ length_of (map row_view rows.now) node index }
{
    match preset_at(rows, node, key_of(index, 0)) {
        Some(count) if 1 <= count && count <= 8 => counted_bytes(rows, node, index, count),
        _ => None,
    }
}

// the number of a COB-ID by its four bytes
fn shown_identifier(bytes: &[u8]) -> Option<u16>
    ensures { result ≡ shown_identifier bytes.now }
{
    match bytes {
        [a, b, c, d] => identifier_of(
            *a as u64 + *b as u64 * 0x100 + *c as u64 * 0x1_0000 + *d as u64 * 0x100_0000,
        ),
        _ => None,
    }
}

pub(crate) fn first_byte(bytes: &[u8]) -> Option<u8>
    ensures { result ≡ first_byte bytes.now }
{
    match bytes {
        [byte, ..] => Some(*byte),
        _ => None,
    }
}

impl Parameters {
    /// Nothing is known.
    pub(crate) fn unknown() -> Parameters
        ensures { result ≡ nothing_known }
    {
        Parameters {
            id: None,
            kind: None,
            inhibit: None,
            timer: None,
            length: None,
        }
    }

    /// What a data sheet, whose entries are in increasing key, has of the TPDO with this number,
    /// from 0 on.
    #[tactic(auto, unfolding(crate::specs::PdoParameters::parameters_of))]
    pub(crate) fn of(rows: &[EntryRow<'_>], node: u8, number: u8) -> Parameters
        requires { AllPairs (λ e f. is_key_before e.key f.key ≡ true) rows.now }
        ensures { result ≡ parameters_of (map row_view rows.now) node number }
    {
        let index = communication(number);
        Parameters {
            id: match preset_at(rows, node, key_of(index, PDO_COB_ID)) {
                Some(number) => identifier_of(number),
                None => None,
            },
            kind: tiny(preset_at(rows, node, key_of(index, TRANSMISSION_TYPE))),
            inhibit: time_at(rows, node, key_of(index, INHIBIT_TIME)),
            timer: time_at(rows, node, key_of(index, EVENT_TIMER)),
            length: length_of(rows, node, mapping(number)),
        }
    }

    /// A download to a sub-index of its communication parameter is requested: what that has is
    /// unknown until it is answered.
    pub(crate) fn asked_to_write(self, sub: u8) -> Parameters
        ensures { result ≡ asked_to_write self sub }
    {
        let mut parameters = self;
        match sub {
            PDO_COB_ID => parameters.id = None,
            TRANSMISSION_TYPE => parameters.kind = None,
            INHIBIT_TIME => parameters.inhibit = None,
            EVENT_TIMER => parameters.timer = None,
            _ => {}
        }
        parameters
    }

    /// An expedited transfer of a sub-index of its communication parameter is done: it shows what
    /// that has.
    pub(crate) fn shown(self, sub: u8, bytes: &[u8]) -> Parameters
        ensures { result ≡ shown self sub bytes.now }
    {
        let mut parameters = self;
        match sub {
            PDO_COB_ID => parameters.id = shown_identifier(bytes),
            TRANSMISSION_TYPE => parameters.kind = first_byte(bytes),
            INHIBIT_TIME => parameters.inhibit = first_word(bytes),
            EVENT_TIMER => parameters.timer = first_word(bytes),
            _ => {}
        }
        parameters
    }
}
