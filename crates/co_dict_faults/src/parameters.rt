//! The faults of the parameters of a dictionary.

ghost use Rattle.std.specs.Prelude.{◌≡◌, ◌++◌, ◌&&◌, not, map, true, None, OnOk};
ghost use Rattle.co_dict.specs.MappingCounts.{is_mapping_index};
ghost use Rattle.co_dict_build.specs.BuildFaults.{is_unpaired};
ghost use Rattle.co_dict_faults.specs.AllBuildFaults.{
  is_word_found,
  list_if,
  is_index,
  bad_words,
  unpaired_past,
  is_mapping_found,
  bad_mappings,
  words_at_fault,
  words_of_mapping,
};
ghost use Rattle.co_dict_faults.specs.MappingReasons.{side_of};

use crate::mapping_fault::MappingFault;
use crate::mappings::mapping_faults;
use crate::sound_rows::{rests_mapping, rests_word};
use co_dict::{ObjectStore, Side};
use co_dict_build::{BuildFault, is_bad_cob_id, is_bad_mapping, is_unpaired};
use co_profile::IndexRange;
use co_sheet::EntryRow;
use co_value::Key;
use std::alloc::{AllocError, Global};

fn is_word_found<S: ObjectStore>(store: &S, outside: &[Key], key: Key) -> bool
    ensures { result
        ≡ is_word_found outside.now (S.description store.now) (S.contents store.now) key }
{
    !rests_word(outside, key) && is_bad_cob_id(store, key)
}

/// Adds each initial COB-ID word that isn't allowed (CiA 301, 7.5.2).
pub(crate) fn add_words<S: ObjectStore>(
    faults: &mut Vec<BuildFault>,
    store: &S,
    rows: &[EntryRow<'_>],
    outside: &[Key],
) -> Result<(), AllocError>
    ensures { OnOk result (faults.new.items ≡ faults.old.items
        ++ bad_words outside.now (S.description store.now) (S.contents store.now)
        (map (λ row. row.key) rows.now)) }
{
    for row in rows {
        let is_found = is_word_found(store, outside, row.key);
        attempt!(add_if(faults, is_found, BuildFault::BadCobId(row.key)));
    }
    Ok(())
}

/// Adds a fault, if a condition is true.
pub(crate) fn add_if(
    faults: &mut Vec<BuildFault>,
    condition: bool,
    fault: BuildFault,
) -> Result<(), AllocError>
    ensures { OnOk result (faults.new.items ≡ faults.old.items ++ list_if condition fault) }
{
    if !condition {
        return Ok(());
    }
    attempt_in_memory!(faults.push(fault));
    Ok(())
}

fn is_index(last: Option<u16>, index: u16) -> bool
    ensures { result ≡ is_index last index }
{
    match last {
        Some(before) => before == index,
        None => false,
    }
}

// whether an index is another than the last one, of a PDO object without its partner or an entry
fn is_lone<S: ObjectStore>(store: &S, last: Option<u16>, index: u16) -> bool
    ensures { result
        ≡ (not (is_index last index) && is_unpaired (S.description store.now).rows index) }
{
    !is_index(last, index) && is_unpaired(store, index)
}

/// Adds each PDO object that has no partner, or lacks an entry that a PDO needs (CiA 301, 7.5.2.35
/// to 7.5.2.38).
pub(crate) fn add_lone_objects<S: ObjectStore>(
    faults: &mut Vec<BuildFault>,
    store: &S,
    rows: &[EntryRow<'_>],
) -> Result<(), AllocError>
    ensures { OnOk result (faults.new.items ≡ faults.old.items
        ++ unpaired_past (S.description store.now).rows None (map (λ row. row.key) rows.now)) }
{
    let mut last = None;
    for row in rows {
        let index = row.key.index;
        let is_lone = is_lone(store, last, index);
        attempt!(add_if(faults, is_lone, BuildFault::PdoPair(index)));
        last = Some(index);
    }
    Ok(())
}

fn is_mapping_found<S: ObjectStore>(store: &S, outside: &[Key], key: Key) -> bool
    ensures value { result
        ≡ is_mapping_found outside.now (S.description store.now) (S.contents store.now) key }
    ensures index { result ≡ true → is_mapping_index (side_of key.index) key.index ≡ true }
{
    !rests_mapping(outside, key.index) && is_bad_mapping(store, key)
}

/// Adds each initial mapping that isn't allowed (CiA 301, 7.5.2.36, 7.5.2.38).
pub(crate) fn add_mappings<S: ObjectStore>(
    faults: &mut Vec<BuildFault>,
    store: &S,
    rows: &[EntryRow<'_>],
    outside: &[Key],
) -> Result<(), AllocError>
    ensures { OnOk result (faults.new.items ≡ faults.old.items
        ++ bad_mappings outside.now (S.description store.now) (S.contents store.now)
        (map (λ row. row.key) rows.now)) }
{
    for row in rows {
        let is_found = is_mapping_found(store, outside, row.key);
        attempt!(add_if(faults, is_found, BuildFault::BadMapping(row.key)));
    }
    Ok(())
}

// the side whose mapping parameter an index is
fn side_of(index: u16) -> Side
    ensures { result ≡ side_of index }
{
    if IndexRange::RPDO_MAPPING.contains(index) {
        Side::Rpdo
    } else {
        Side::Tpdo
    }
}

// adds the faults of the words and the count of a mapping, if it isn't allowed
fn add_words_of_mapping<S: ObjectStore>(
    alloc: Global,
    words: &mut Vec<MappingFault>,
    store: &S,
    outside: &[Key],
    key: Key,
) -> Result<(), AllocError>
    ensures { OnOk result (words.new.items ≡ words.old.items
        ++ words_of_mapping outside.now (S.description store.now) (S.contents store.now) key) }
{
    if !is_mapping_found(store, outside, key) {
        return Ok(());
    }
    let found = attempt!(mapping_faults(alloc, store, side_of(key.index), key.index));
    words.extend_from_slice(found.as_slice())
}

/// Adds the faults of the words and counts of the mappings that aren't allowed.
pub(crate) fn add_words_at_fault<S: ObjectStore>(
    alloc: Global,
    words: &mut Vec<MappingFault>,
    store: &S,
    rows: &[EntryRow<'_>],
    outside: &[Key],
) -> Result<(), AllocError>
    ensures { OnOk result (words.new.items ≡ words.old.items
        ++ words_at_fault outside.now (S.description store.now) (S.contents store.now)
        (map (λ row. row.key) rows.now)) }
{
    for row in rows {
        attempt!(add_words_of_mapping(alloc, words, store, outside, row.key));
    }
    Ok(())
}
