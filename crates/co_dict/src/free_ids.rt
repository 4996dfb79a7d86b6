//! Which COB-ID words a PDO, the emergency or SYNC may have.

ghost use Rattle.std.specs.Prelude.{◌≡◌};
ghost use Rattle.co_dict.specs.FreeIds.{is_free, is_good_word, is_good_sync_word};

use crate::cob_id::{CobId, is_default_sdo, is_restricted};
use crate::sdo_channels::is_sdo_id;
use crate::store::ObjectStore;

/// Whether a PDO, the emergency or SYNC may have the identifier: it is not restricted, it is none
/// of 581h to 5FFh and 601h to 67Fh, which default SDO channels have, and no SDO channel of this
/// device has it (CiA 301, 7.3.5).
pub fn is_free<S: ObjectStore>(store: &S, identifier: u16) -> bool
    ensures { result ≡ is_free (S.description store.now).node (S.contents store.now) identifier }
{
    !is_restricted(identifier) && !is_default_sdo(identifier) && !is_sdo_id(store, identifier)
}

/// Whether a PDO or the emergency may have the word: bit 31 is set, or bits 29 to 11 are 0 and the
/// identifier is free (CiA 301, 7.5.2.17, 7.5.2.35).
pub fn is_good_word<S: ObjectStore>(store: &S, word: CobId) -> bool
    ensures { result ≡ is_good_word (S.description store.now).node (S.contents store.now) word.0 }
{
    word.has_bit_31() || (word.has_11_bits() && is_free(store, word.identifier()))
}

/// Whether SYNC may have the word: bits 30 to 11 are 0 and the identifier is free
/// (CiA 301, 7.5.2.5).
pub fn is_good_sync_word<S: ObjectStore>(store: &S, word: CobId) -> bool
    ensures { result
        ≡ is_good_sync_word (S.description store.now).node (S.contents store.now) word.0 }
{
    word.is_sync_consumer() && is_free(store, word.identifier())
}
