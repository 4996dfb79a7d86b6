//! The bits of an entry in the data of a PDO.

ghost use Rattle.std.specs.Prelude.{◌≡◌, ◌+◌, ◌≤◌, IfSome, length};
ghost use Rattle.std.specs.Option.{option_copied};
ghost use Rattle.conode_explain_values.specs.Values.{HasBits};
ghost use Rattle.conode_explain_cob_ids.specs.Buses.{bus_view};
ghost use Rattle.conode_explain_pdo.specs.EntryBits.{
  assumed_bits,
  bits_by,
  bits_in_force,
  bits_of,
  entry_bits,
  place_from,
  shown_bits,
};
ghost use Rattle.conode_explain_pdo.specs.Mappings.{total_bits};

use crate::in_force::{mapping_in_force, word_count};
use crate::mapping::{Mapping, part_bytes, total_bits, word_bits, word_key};
use arrayvec::ArrayVec;
use co_value::Key;
use conode_explain_cob_ids::{Bus, Claim, SheetMapping, sheet_mapping};
use conode_explain_entries::PdoState;

/// The bits of an entry: how many there are, and the bits, the lowest first, in as few bytes as
/// they need.
#[derive(Drop)]
pub struct EntryBits {
    /// Their number.
    pub bits: usize,
    /// The bytes.
    pub bytes: ArrayVec<u8, 8>,
}

// Where the bits of an entry are in data.
#[derive(Clone, Copy)]
struct Place {
    offset: usize,
    bits: usize,
}

#[tactic(auto, unfolding(crate::specs::EntryBits::place_from))]
fn place_of(words: &[u32], key: Key) -> Option<Place>
    requires { total_bits words.now ≤ 64 }
    ensures place { result ≡ place_from key 0 words.now }
    ensures within { IfSome result (λ place. place.offset + place.bits ≤ 64) }
{
    let mut offset = 0;
    for word in words {
        if key.comparisons(word_key(*word)).0 {
            return Some(Place {
                offset,
                bits: word_bits(*word),
            });
        }
        offset += word_bits(*word);
    }
    None
}

fn bits_of(bytes: &[u8], place: Place) -> EntryBits
    requires few { length bytes.now ≤ 8 }
    requires within { place.offset + place.bits ≤ 64 }
    ensures bits { result ≡ bits_of bytes.now place }
    ensures count { HasBits result.bits result.bytes.items }
{
    EntryBits {
        bits: place.bits,
        bytes: part_bytes(bytes, place.offset, place.bits),
    }
}

// the bits of an entry by the words of a mapping
fn bits_by(words: &[u32], key: Key, bytes: &[u8]) -> Option<EntryBits>
    requires words { length words.now ≤ 64 }
    requires few { length bytes.now ≤ 8 }
    ensures bits { result ≡ bits_by key bytes.now words.now }
    ensures count { IfSome result (λ found. HasBits found.bits found.bytes.items) }
{
    if bytes.len() < (total_bits(words) + 7) / 8 {
        return None;
    }
    let Some(place) = place_of(words, key) else {
        return None;
    };
    Some(bits_of(bytes, place))
}

#[tactic(auto, unfolding(crate::specs::EntryBits::entry_bits))]
fn entry_bits(mapping: &Mapping, key: Key, bytes: &[u8]) -> Option<EntryBits>
    requires { length bytes.now ≤ 8 }
    ensures bits { result ≡ entry_bits key bytes.now mapping.now }
    ensures count { IfSome result (λ found. HasBits found.bits found.bytes.items) }
{
    let words = mapping.words.as_slice();
    let count = word_count(mapping.count) as usize;
    bits_by(&words[..count.min(words.len())], key, bytes)
}

// by the mapping of which the recording shows something
fn shown_bits(
    sheet: Option<&SheetMapping>,
    state: &PdoState,
    key: Key,
    bytes: &[u8],
) -> Option<EntryBits>
    requires { length bytes.now ≤ 8 }
    ensures bits { result
        ≡ shown_bits key bytes.now (option_copied sheet.entry) state.entry.now }
    ensures count { IfSome result (λ found. HasBits found.bits found.bytes.items) }
{
    if state.is_being_changed {
        return None;
    }
    let Some(mapping) = mapping_in_force(state.now.mapping.as_slice(), sheet) else {
        return None;
    };
    entry_bits(&mapping, key, bytes)
}

// by the mapping of the sheet
fn assumed_bits(sheet: Option<&SheetMapping>, key: Key, bytes: &[u8]) -> Option<EntryBits>
    requires { length bytes.now ≤ 8 }
    ensures bits { result ≡ assumed_bits key bytes.now (option_copied sheet.entry) }
    ensures count { IfSome result (λ found. HasBits found.bits found.bytes.items) }
{
    let Some(mapping) = mapping_in_force(&[], sheet) else {
        return None;
    };
    entry_bits(&mapping, key, bytes)
}

impl EntryBits {
    /// The bits of an entry in data of a PDO, by its mapping in force: the one that the recording
    /// shows, else that of the data sheet. `None` where the PDO doesn't map the entry, the data are
    /// shorter than what is mapped, or the mapping is being changed or isn't known.
    #[tactic(auto, unfolding(crate::specs::EntryBits::bits_in_force))]
    pub fn in_force(
        bus: Bus<'_, '_, '_, '_, '_>,
        claim: Claim,
        key: Key,
        bytes: &[u8],
    ) -> Option<EntryBits>
        requires { length bytes.now ≤ 8 }
        ensures bits { result ≡ bits_in_force (bus_view bus.entry) claim key bytes.now }
        ensures count { IfSome result (λ found. HasBits found.bits found.bytes.items) }
    {
        let sheet = sheet_mapping(bus, claim.node, claim.index);
        if let Some(state) = bus.state(claim.node, claim.index) {
            return shown_bits(sheet, state, key, bytes);
        }
        assumed_bits(sheet, key, bytes)
    }
}
