//! The initial mappings of a dictionary (CiA 301, 7.5.2.36, 7.5.2.38).

ghost use Rattle.std.specs.Prelude.{◌≡◌, map};
ghost use Rattle.co_dict.specs.MappingCounts.{is_mapping_index};
ghost use Rattle.co_dict_build.specs.BuildFaults.{is_bad_count, is_bad_mapping, smallest_key};

use co_dict::{ObjectStore, Side, check_count, number_u8};
use co_profile::IndexRange;
use co_sheet::EntryRow;
use co_value::Key;

// whether an index is that of a mapping parameter of a side
fn is_mapping_index(side: Side, index: u16) -> bool
    ensures { result ≡ is_mapping_index side index }
{
    match side {
        Side::Rpdo => IndexRange::RPDO_MAPPING.contains(index),
        Side::Tpdo => IndexRange::TPDO_MAPPING.contains(index),
    }
}

// whether the mapping of a PDO of a side begins with a count that would be refused while the PDO is
// not valid
fn is_bad_count<S: ObjectStore>(store: &S, side: Side, index: u16) -> bool
    ensures { result ≡ is_bad_count side (S.description store.now) (S.contents store.now) index }
{
    if !is_mapping_index(side, index) {
        return false;
    }
    let count = number_u8(store, Key { index, sub: 0 });
    count != 0 && check_count(store, side, index, count).is_err()
}

/// Whether an entry is the count of an initial mapping that isn't allowed (CiA 301, 7.5.2.36,
/// 7.5.2.38): `BuildFault::BadMapping`.
pub fn is_bad_mapping<S: ObjectStore>(store: &S, key: Key) -> bool
    ensures { result ≡ is_bad_mapping (S.description store.now) (S.contents store.now) key }
{
    key.sub == 0
        && (is_bad_count(store, Side::Rpdo, key.index)
            || is_bad_count(store, Side::Tpdo, key.index))
}

/// The smallest key, with sub-index 0, of an initial mapping that isn't allowed.
pub(crate) fn bad_mapping<S: ObjectStore>(store: &S, rows: &[EntryRow<'_>]) -> Option<Key>
    ensures { result
        ≡ smallest_key (is_bad_mapping (S.description store.now) (S.contents store.now))
        (map (λ row. row.key) rows.now) }
{
    for row in rows {
        if is_bad_mapping(store, row.key) {
            return Some(row.key);
        }
    }
    None
}
