//! The initial COB-ID words of a dictionary (CiA 301, 7.5.2).

ghost use Rattle.std.specs.Prelude.{◌≡◌, ◌≤◌, false, map};
ghost use Rattle.co_dict_build.specs.BuildFaults.{
  is_sync_key,
  is_word_key,
  is_channel_key,
  is_used_by_channel,
  is_used_before,
  is_bad_channel_word,
  is_bad_sync_word,
  is_bad_word,
  is_bad_cob_id,
  smallest_key,
};

use super::pdo_pairs::is_communication;
use co_dict::{
    CobId, ObjectStore, is_good_sync_word, is_good_word, is_restricted, number_u32, sdo_channel,
};
use co_profile::{IndexRange, PDO_COB_ID, keys};
use co_sheet::EntryRow;
use co_value::Key;

fn is_sync_key(key: Key) -> bool
    ensures { result ≡ is_sync_key key }
{
    key == keys::SYNC_COB_ID
}

fn is_word_key(key: Key) -> bool
    ensures { result ≡ is_word_key key }
{
    key == keys::EMERGENCY_COB_ID || (is_communication(key.index) && key.sub == PDO_COB_ID)
}

/// Whether an entry is a COB-ID word of an SDO channel (CiA 301, 7.5.2.33).
pub fn is_channel_key(key: Key) -> bool
    ensures { result ≡ is_channel_key key }
{
    IndexRange::SDO_SERVER.contains(key.index) && matches!(key.sub, 1..=2)
}

// whether a channel exists, and one of its words has the identifier at a smaller key
fn is_used_by_channel<S: ObjectStore>(store: &S, key: Key, identifier: u16, number: u8) -> bool
    requires { number ≤ 127 }
    ensures { result ≡ is_used_by_channel (S.description store.now).node (S.contents store.now)
        key identifier number }
{
    let index = IndexRange::SDO_SERVER.nth(u16::from(number));
    match sdo_channel(store, number) {
        Some(channel) => {
            (Key { index, sub: 1 } < key && identifier == channel.request)
                || (Key { index, sub: 2 } < key && identifier == channel.answer)
        }
        None => false,
    }
}

// whether an SDO channel that exists has the identifier at a smaller key
#[tactic(auto, unfolding(crate::specs::BuildFaults::is_used_before))]
fn is_used_before<S: ObjectStore>(store: &S, key: Key, identifier: u16) -> bool
    ensures { result ≡ is_used_before (S.description store.now).node (S.contents store.now)
        key identifier }
{
    (0..128u8).any(|number| is_used_by_channel(store, key, identifier, number))
}

fn is_bad_channel_word<S: ObjectStore>(store: &S, key: Key, word: CobId) -> bool
    ensures { result ≡ is_bad_channel_word (S.description store.now).node (S.contents store.now)
        key word.0 }
{
    !word.has_11_bits()
        || is_restricted(word.identifier())
        || is_used_before(store, key, word.identifier())
}

fn is_bad_sync_word<S: ObjectStore>(store: &S, word: CobId) -> bool
    ensures { result ≡ is_bad_sync_word (S.description store.now).node (S.contents store.now)
        word.0 }
{
    !(word.0 == 0 || is_good_sync_word(store, word))
}

fn is_bad_word<S: ObjectStore>(store: &S, word: CobId) -> bool
    ensures { result ≡ is_bad_word (S.description store.now).node (S.contents store.now) word.0 }
{
    !(word.0 == 0 || is_good_word(store, word))
}

/// Whether the initial COB-ID word of an entry isn't one that it may have (CiA 301, 7.5.2):
/// `BuildFault::BadCobId`.
#[tactic(auto, using(crate::proofs::CobIdKeys::word_type))]
pub fn is_bad_cob_id<S: ObjectStore>(store: &S, key: Key) -> bool
    ensures { result ≡ is_bad_cob_id (S.description store.now).node (S.contents store.now) key }
{
    if is_sync_key(key) {
        is_bad_sync_word(store, CobId(number_u32(store, key)))
    } else if is_word_key(key) {
        is_bad_word(store, CobId(number_u32(store, key)))
    } else if is_channel_key(key) {
        sdo_channel(store, (key.index - IndexRange::SDO_SERVER.0) as u8).is_some()
            && is_bad_channel_word(store, key, CobId(number_u32(store, key)))
    } else {
        false
    }
}

/// The smallest key among the rows of a sheet whose entry has an initial COB-ID word that isn't
/// allowed.
pub(crate) fn bad_cob_id<S: ObjectStore>(store: &S, rows: &[EntryRow<'_>]) -> Option<Key>
    ensures { result
        ≡ smallest_key (is_bad_cob_id (S.description store.now).node (S.contents store.now))
        (map (λ row. row.key) rows.now) }
{
    for row in rows {
        if is_bad_cob_id(store, row.key) {
            return Some(row.key);
        }
    }
    None
}
