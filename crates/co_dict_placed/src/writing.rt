//! Why a writing by the application is refused, by the place of the entry.

ghost use Rattle.std.specs.Prelude.{◌≡◌, Some, true, length, OnOk};
ghost use Rattle.co_dict.specs.Places.{key_at, takes_at};
ghost use Rattle.co_dict.specs.Refusals.{refusal_in};
ghost use Rattle.co_dict.specs.WriteRefusals.{app_refusal};

use crate::placed::Placed;
use co_dict::{ObjectStore, app_store};
use co_frame_aborts::AbortCode;
use co_value::Key;

/// Whether the application may set these bytes of the entry at a place, which has this key: refused
/// as by `app_store`, without a search for the entry. Nothing is set. After Ok the bytes fit the
/// entry.
pub fn app_store_at<S: ObjectStore>(
    store: &mut S,
    place: u32,
    key: Key,
    bytes: &[u8],
) -> Result<(), AbortCode>
    requires { key_at (S.description store.old) place ≡ Some key }
    ensures refusal { refusal_in result
        ≡ app_refusal (S.description store.old) (S.contents store.old) key bytes.now }
    ensures takes { OnOk result (takes_at (S.description store.old) place (length bytes.now)
        ≡ true) }
    ensures contents { S.contents store.new ≡ S.contents store.old }
    ensures description { S.description store.new ≡ S.description store.old }
{
    let placed = Placed { store, key, place };
    app_store(&placed, key, bytes)
}
