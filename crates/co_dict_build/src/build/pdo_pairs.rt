//! Whether each PDO has its two objects and the entries that it needs (CiA 301, 7.5.2.35 to
//! 7.5.2.38).

ghost use Rattle.std.specs.Prelude.{◌≡◌, find, map};
ghost use Rattle.co_dict_build.specs.BuildFaults.{
  is_communication,
  is_mapping,
  is_lone_communication,
  is_lone_mapping,
  is_unpaired,
};

use co_dict::{ObjectStore, has_object, has_sub};
use co_profile::IndexRange;
use co_sheet::EntryRow;

/// Whether an object is the communication parameter of a PDO.
pub(crate) fn is_communication(index: u16) -> bool
    ensures { result ≡ is_communication index }
{
    IndexRange::RPDO_COMMUNICATION.contains(index) || IndexRange::TPDO_COMMUNICATION.contains(index)
}

fn is_mapping(index: u16) -> bool
    ensures { result ≡ is_mapping index }
{
    IndexRange::RPDO_MAPPING.contains(index) || IndexRange::TPDO_MAPPING.contains(index)
}

// whether a PDO's communication parameter is without its mapping parameter, or without sub-index 1
// or 2
fn is_lone_communication<S: ObjectStore>(store: &S, index: u16) -> bool
    ensures { result ≡ is_lone_communication (S.description store.now).rows index }
{
    is_communication(index)
        && !(has_object(store, index + 0x200)
            && has_sub(store, index, 1)
            && has_sub(store, index, 2))
}

// whether a PDO's mapping parameter is without its communication parameter, or without sub-index 0
fn is_lone_mapping<S: ObjectStore>(store: &S, index: u16) -> bool
    ensures { result ≡ is_lone_mapping (S.description store.now).rows index }
{
    is_mapping(index) && !(has_object(store, index - 0x200) && has_sub(store, index, 0))
}

/// Whether an object of a PDO has no partner, or lacks an entry that a PDO needs (CiA 301, 7.5.2.35
/// to 7.5.2.38): `BuildFault::PdoPair`.
pub fn is_unpaired<S: ObjectStore>(store: &S, index: u16) -> bool
    ensures { result ≡ is_unpaired (S.description store.now).rows index }
{
    is_lone_communication(store, index) || is_lone_mapping(store, index)
}

/// The smallest index of a PDO object that has no partner, or lacks an entry that a PDO needs.
pub(crate) fn unpaired<S: ObjectStore>(store: &S, rows: &[EntryRow<'_>]) -> Option<u16>
    ensures { result
        ≡ find (is_unpaired (S.description store.now).rows) (map (λ row. row.key.index) rows.now) }
{
    for row in rows {
        if is_unpaired(store, row.key.index) {
            return Some(row.key.index);
        }
    }
    None
}
