//! What happens to the entries of a node.

ghost use Rattle.std.specs.Prelude.{◌≡◌, ◌≤◌, length, take};
ghost use Rattle.conode_explain_entries.specs.Events.{
  download_event,
  entry_of,
  event_after,
  event_in,
  event_of,
  has_signature,
  has_width,
  is_channel,
  is_cob_id,
  is_expedited,
  is_load,
  is_mapping,
  is_save,
  is_service,
  is_store,
  is_unclear,
  number_in,
  number_width,
  or_unclear,
  read_event,
  unclear_event,
  upload_event,
  written_event,
};

use co_profile::{IndexRange, PDO_COB_ID, RESTORE_PARAMETERS, STORE_PARAMETERS};
use co_value::{Key, unsigned_of};
use conode_explain_transfers::{Direction, Ended, Ending, Protocol, Told};

/// Which entry of a PDO.
#[derive(Clone, Copy)]
pub enum PdoPart {
    /// Its COB-ID: sub-index 1 of its communication parameter.
    CobId,
    /// A sub-index of its mapping parameter, 0 to 64; of an SDO channel's parameter 1 to 3; 0 of the
    /// device type, and of the COB-IDs of SYNC, TIME and emergencies.
    Mapping { sub: u8 },
}

/// An entry of a PDO, of an SDO channel, or of one of the services SYNC, TIME and emergency; or the
/// device type.
#[derive(Clone, Copy)]
pub struct PdoEntry {
    /// The index of the PDO's communication parameter, of the channel's parameter, or of the entry.
    pub index: u16,
    /// Which of its entries.
    pub part: PdoPart,
}

/// What happens to the entries of a node.
#[derive(Clone, Copy)]
pub enum Event {
    /// A download to an entry was acknowledged, with this number. `None`: bytes of it are missing
    /// in the recording, it isn't known, or it has another length than the entry's type.
    Written { of: PdoEntry, number: Option<u32> },
    /// An upload of an entry was answered with this number. `None`: it has another length than the
    /// entry's type.
    Read { of: PdoEntry, number: Option<u32> },
    /// The node booted up (CiA 301, 7.2.8.3.3).
    BootedUp,
    /// The node stored its parameters (CiA 301, 7.5.2.13).
    Saved,
    /// The node restores its default parameters with the next reset (CiA 301, 7.5.2.14).
    Restored,
    /// The node may have stored its parameters, or may restore its default ones with the next
    /// reset: such a download was acknowledged, and its bytes aren't known.
    Unclear,
}

fn is_cob_id(key: Key) -> bool
    ensures { result ≡ is_cob_id key }
{
    key.sub == PDO_COB_ID
        && (IndexRange::TPDO_COMMUNICATION.contains(key.index)
            || IndexRange::RPDO_COMMUNICATION.contains(key.index))
}

fn is_mapping(key: Key) -> bool
    ensures { result ≡ is_mapping key }
{
    key.sub <= 64
        && (IndexRange::TPDO_MAPPING.contains(key.index)
            || IndexRange::RPDO_MAPPING.contains(key.index))
}

// of an SDO channel other than the default one
fn is_channel(key: Key) -> bool
    ensures { result ≡ is_channel key }
{
    (1 <= key.sub && key.sub <= 3) && (0x1201 <= key.index && key.index <= 0x12FF)
}

// the device type, and the COB-IDs of SYNC, TIME and emergencies
fn is_service(key: Key) -> bool
    ensures { result ≡ is_service key }
{
    key.sub == 0
        && (key.index == 0x1000
            || (key.index == 0x1005 || (key.index == 0x1012 || key.index == 0x1014)))
}

fn entry_of(key: Key) -> Option<PdoEntry>
    ensures { result ≡ entry_of key }
{
    if is_cob_id(key) {
        return Some(PdoEntry {
            index: key.index,
            part: PdoPart::CobId,
        });
    }
    if is_mapping(key) {
        return Some(PdoEntry {
            index: key.index.saturating_sub(0x200),
            part: PdoPart::Mapping { sub: key.sub },
        });
    }
    if is_channel(key) || is_service(key) {
        return Some(PdoEntry {
            index: key.index,
            part: PdoPart::Mapping { sub: key.sub },
        });
    }
    None
}

fn number_width(key: Key) -> usize
    ensures { result ≡ number_width key }
{
    if (key.sub == 0 && !is_service(key)) || (is_channel(key) && key.sub == 3) {
        1
    } else {
        4
    }
}

// the first bytes, at most four
fn first_bytes(bytes: &[u8], count: usize) -> &[u8]
    requires { count ≤ 4 }
    ensures bytes { result.now ≡ take count bytes.now }
    ensures few { length result.now ≤ 4 }
{
    if count < bytes.len() {
        &bytes[..count]
    } else {
        bytes
    }
}

fn is_expedited(protocol: Protocol) -> bool
    ensures { result ≡ is_expedited protocol }
{
    matches!(protocol, Protocol::Expedited)
}

// as many bytes as the type has; without an indicated size four
fn has_width(key: Key, protocol: Protocol, count: usize) -> bool
    ensures { result ≡ has_width key protocol count }
{
    count == number_width(key) || (is_expedited(protocol) && count == 4)
}

fn number_in(key: Key, protocol: Protocol, bytes: &[u8]) -> Option<u32>
    ensures { result ≡ number_in key protocol bytes.now }
{
    if has_width(key, protocol, bytes.len()) {
        Some(unsigned_of(first_bytes(bytes, number_width(key))) as u32)
    } else {
        None
    }
}

// all parameters, or those of communication
fn has_signature(key: Key, index: u16, bytes: &[u8], signature: &[u8]) -> bool
    ensures { result ≡ has_signature key index bytes.now signature.now }
{
    key.index == index && ((key.sub == 1 || key.sub == 2) && bytes == signature)
}

fn is_save(key: Key, bytes: &[u8]) -> bool
    ensures { result ≡ is_save key bytes.now }
{
    has_signature(key, STORE_PARAMETERS, bytes, b"save")
}

fn is_load(key: Key, bytes: &[u8]) -> bool
    ensures { result ≡ is_load key bytes.now }
{
    has_signature(key, RESTORE_PARAMETERS, bytes, b"load")
}

fn written_event(key: Key, protocol: Protocol, bytes: &[u8]) -> Option<Event>
    ensures { result ≡ written_event key protocol bytes.now }
{
    if is_save(key, bytes) {
        return Some(Event::Saved);
    }
    if is_load(key, bytes) {
        return Some(Event::Restored);
    }
    let Some(of) = entry_of(key) else {
        return None;
    };
    let number = number_in(key, protocol, bytes);
    Some(Event::Written { of, number })
}

fn read_event(key: Key, protocol: Protocol, bytes: &[u8]) -> Option<Event>
    ensures { result ≡ read_event key protocol bytes.now }
{
    let Some(of) = entry_of(key) else {
        return None;
    };
    let number = number_in(key, protocol, bytes);
    Some(Event::Read { of, number })
}

// parameters are stored, or default ones restored, by a download with a signature
fn is_store(key: Key) -> bool
    ensures { result ≡ is_store key }
{
    (key.sub == 1 || key.sub == 2)
        && (key.index == STORE_PARAMETERS || key.index == RESTORE_PARAMETERS)
}

fn unclear_event(key: Key) -> Option<Event>
    ensures { result ≡ unclear_event key }
{
    if is_store(key) {
        return Some(Event::Unclear);
    }
    let Some(of) = entry_of(key) else {
        return None;
    };
    Some(Event::Written { of, number: None })
}

// whether a download was acknowledged, and its bytes aren't known
fn is_unclear(ending: Ending) -> bool
    ensures { result ≡ is_unclear ending }
{
    match ending {
        Ending::Irregular
        | Ending::SizeDiffers { indicated: _ }
        | Ending::CrcDiffers {
            came: _,
            computed: _,
        } => true,
        _ => false,
    }
}

fn download_event(ended: &Ended) -> Option<Event>
    ensures { result ≡ download_event ended.now.ending ended.now.key ended.now.protocol ended.now.first.items }
{
    match ended.ending {
        Ending::Done { crc: _ } => {
            written_event(ended.key, ended.protocol, ended.first.as_slice())
        }
        _ if is_unclear(ended.ending) => unclear_event(ended.key),
        _ => None,
    }
}

fn upload_event(ended: &Ended) -> Option<Event>
    ensures { result ≡ upload_event ended.now.ending ended.now.key ended.now.protocol ended.now.first.items }
{
    match ended.ending {
        Ending::Done { crc: _ } => read_event(ended.key, ended.protocol, ended.first.as_slice()),
        _ => None,
    }
}

fn event_after(ended: &Ended) -> Option<Event>
    ensures { result ≡ event_after ended.now }
{
    match ended.direction {
        Direction::Download => download_event(ended),
        Direction::Upload => upload_event(ended),
    }
}

fn event_of(ended: &Option<Ended>) -> Option<Event>
    ensures { result ≡ event_of ended.now }
{
    match ended {
        Some(ended) => event_after(ended),
        None => None,
    }
}

// where no transfer that ended shows anything: a download that isn't known was accepted
fn or_unclear(event: Option<Event>, unclear: Option<Key>) -> Option<Event>
    ensures { result ≡ or_unclear event unclear }
{
    match (event, unclear) {
        (Some(event), _) => Some(event),
        (None, Some(key)) => unclear_event(key),
        (None, None) => None,
    }
}

/// What a frame does to the entries of its node, by what is known about it; `None` for nothing.
pub fn event_in(told: &Told) -> Option<Event>
    ensures { result ≡ event_in told.now }
{
    if let None = told.part {
        return Some(Event::BootedUp);
    }
    or_unclear(event_of(&told.ended), told.unclear)
}
