//! Why a reading is refused, and where the bytes are that may be read.

ghost use Rattle.std.specs.Prelude.{◌≡◌, Some, true, is_some, OnOk, IfOk};
ghost use Rattle.co_dict.specs.Refusals.{refusal_in};
ghost use Rattle.co_dict.specs.ErrorField.{is_past_errors};
ghost use Rattle.co_dict.specs.Places.{place_of};
ghost use Rattle.co_dict.specs.ReadRefusals.{reading_refusal};

use crate::error_field::error_count;
use crate::objects::placed_row;
use crate::store::{ObjectStore, store_laws};
use co_frame_aborts::AbortCode;
use co_profile::{Access, ERROR_FIELD};
use co_value::Key;

// whether a sub-index of 1003h is above the number of errors
fn is_past_errors<S: ObjectStore>(store: &S, key: Key) -> bool
    ensures { result ≡ is_past_errors (S.contents store.now) key }
{
    key.index == ERROR_FIELD && error_count(store) < key.sub
}

/// The place of an entry that may be read, from one search: `bytes_at` gives its bytes without
/// another (CiA 301, 7.2.4.3.17). It is refused as by `may_read`. After Ok the entry has bytes.
pub fn readable<S: ObjectStore>(store: &S, key: Key) -> Result<u32, AbortCode>
    ensures refusal { refusal_in result
        ≡ reading_refusal (S.description store.now).rows (S.contents store.now) key }
    ensures place { IfOk result (λ place. place_of (S.description store.now) key ≡ Some place) }
    ensures there { OnOk result (is_some (S.contents store.now key) ≡ true) }
{
    store_laws(store);
    let (place, row) = placed_row(store, key)?;
    if row.access == Access::Wo {
        return Err(AbortCode::WRITE_ONLY);
    }
    if is_past_errors(store, key) {
        return Err(AbortCode::NO_VALUE);
    }
    Ok(place)
}

/// Whether an entry may be read (CiA 301, 7.2.4.3.17). The first of these refuses it: there is no
/// object of the index (06020000h), there is no such sub-index (06090011h), the access is wo
/// (06010001h), the key is a sub-index of 1003h above the number of errors in 1003:00 (08000024h).
/// After Ok the entry has bytes.
pub fn may_read<S: ObjectStore>(store: &S, key: Key) -> Result<(), AbortCode>
    ensures refusal { refusal_in result
        ≡ reading_refusal (S.description store.now).rows (S.contents store.now) key }
    ensures there { OnOk result (is_some (S.contents store.now key) ≡ true) }
{
    readable(store, key)?;
    Ok(())
}
