//! The faults of a mapping (CiA 301, 7.5.2.36, 7.5.2.38).

ghost use Rattle.std.specs.Prelude.{◌≡◌, ◌≤◌, ◌*◌, ◌++◌, [], true, min, unwrap_or, IfOk, OnOk};
ghost use Rattle.co_dict.specs.MappingCounts.{is_mapping_index, counted_words, total_width};
ghost use Rattle.co_dict.specs.MappingWords.{word_width};
ghost use Rattle.co_dict_faults.specs.MappingReasons.{
  is_empty,
  is_multiplexed,
  fault_list,
  count_reason,
  length_fault,
  word_faults,
  counted_faults,
  mapping_faults,
};

use crate::mapping_fault::{MappingFault, MappingReason};
use crate::words::{has_from, sub_reason};
use co_dict::{MappingWord, ObjectStore, Side, mapping_word, number_u8, word_width};
use co_value::Key;
use std::alloc::{AllocError, Global};

fn add_reason(
    faults: &mut Vec<MappingFault>,
    index: u16,
    sub: u8,
    reason: Option<MappingReason>,
) -> Result<(), AllocError>
    ensures { OnOk result
        (faults.new.items ≡ faults.old.items ++ fault_list index sub reason) }
{
    let Some(reason) = reason else {
        return Ok(());
    };
    let key = Key { index, sub };
    attempt_in_memory!(faults.push(MappingFault { key, reason }));
    Ok(())
}

// adds the faults of the first words, up to 64, to none
fn add_word_faults<S: ObjectStore>(
    faults: &mut Vec<MappingFault>,
    store: &S,
    side: Side,
    index: u16,
    count: u8,
) -> Result<(), AllocError>
    requires none { faults.old.items ≡ [] }
    requires index { is_mapping_index side index ≡ true }
    ensures { OnOk result (faults.new.items
        ≡ word_faults side (S.description store.now) (S.contents store.now) index count) }
{
    for earlier in 0..count.min(64) {
        let reason = sub_reason(store, side, index, earlier + 1);
        attempt!(add_reason(faults, index, earlier + 1, reason));
    }
    Ok(())
}

// how many bytes a word maps; 0 where it can't be mapped
fn width_of_word<S: ObjectStore>(store: &S, side: Side, word: MappingWord) -> u8
    ensures value { result ≡ unwrap_or (word_width side (S.description store.now) word.0) 0 }
    ensures small { result ≤ 8 }
{
    match word_width(store, side, word) {
        Some(width) => width,
        None => 0,
    }
}

// how many bytes the first words map together, up to 64
fn total_width<S: ObjectStore>(store: &S, side: Side, index: u16, count: u8) -> u16
    requires { is_mapping_index side index ≡ true }
    ensures value { result ≡ total_width side (S.description store.now)
        (counted_words (S.contents store.now) index (min count 64)) }
    ensures small { result ≤ 512 }
{
    let mut total = 0u16;
    for earlier in 0..count.min(64) {
        let word = mapping_word(store, side, index, earlier + 1);
        total += u16::from(width_of_word(store, side, word));
    }
    total
}

// more than 8 bytes in all
fn length_fault(total: u16) -> Option<MappingReason>
    requires { total ≤ 512 }
    ensures { result ≡ length_fault total }
{
    if total > 8 {
        Some(MappingReason::TooLong(8 * total))
    } else {
        None
    }
}

// why the count can't be
fn count_reason<S: ObjectStore>(
    is_mapped: bool,
    store: &S,
    side: Side,
    index: u16,
    count: u8,
) -> Option<MappingReason>
    requires { is_mapping_index side index ≡ true }
    ensures { result
        ≡ count_reason is_mapped side (S.description store.now) (S.contents store.now) index count }
{
    if !has_from(store, index, count) {
        Some(MappingReason::CountsMore)
    } else if is_mapped {
        length_fault(total_width(store, side, index, count))
    } else {
        None
    }
}

// adds the faults of a mapping that counts this many words to none
fn add_counted_faults<S: ObjectStore>(
    faults: &mut Vec<MappingFault>,
    store: &S,
    side: Side,
    index: u16,
    count: u8,
) -> Result<(), AllocError>
    requires none { faults.old.items ≡ [] }
    requires index { is_mapping_index side index ≡ true }
    ensures { OnOk result (faults.new.items
        ≡ counted_faults side (S.description store.now) (S.contents store.now) index count) }
{
    attempt!(add_word_faults(faults, store, side, index, count));
    let reason = count_reason(is_empty(faults.as_slice()), store, side, index, count);
    add_reason(faults, index, 0, reason)
}

fn is_empty(faults: &[MappingFault]) -> bool
    ensures { result ≡ is_empty faults.now }
{
    match faults {
        [] => true,
        _ => false,
    }
}

// whether the PDO is multiplexed, in place of a count
fn is_multiplexed(count: u8) -> bool
    ensures { result ≡ is_multiplexed count }
{
    count == 0xFE || count == 0xFF
}

/// Why the initial mapping of a PDO of a side isn't allowed (CiA 301, 7.5.2.36, 7.5.2.38): each
/// counted word that can't be mapped, in increasing sub-index, up to 64; then the count, if it is
/// more than the words that are there, or if they can be mapped and map more than 64 bits in all.
/// Of a multiplexed PDO that alone. No fault where nothing is counted. `Err`: out of memory.
pub fn mapping_faults<S: ObjectStore>(
    alloc: Global,
    store: &S,
    side: Side,
    index: u16,
) -> Result<Vec<MappingFault>, AllocError>
    requires { is_mapping_index side index ≡ true }
    ensures { IfOk result (λ faults. faults.items
        ≡ mapping_faults side (S.description store.now) (S.contents store.now) index) }
{
    let mut faults = Vec::new(alloc);
    let count = number_u8(store, Key { index, sub: 0 });
    if count == 0 {
        return Ok(faults);
    }
    if is_multiplexed(count) {
        attempt!(add_reason(&mut faults, index, 0, Some(MappingReason::Multiplexed)));
        return Ok(faults);
    }
    attempt!(add_counted_faults(&mut faults, store, side, index, count));
    Ok(faults)
}
