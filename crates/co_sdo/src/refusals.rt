//! The abort code of a read or a write that the dictionary refuses, and the value of a permitted
//! read.

ghost use Rattle.std.specs.Prelude.{◌≡◌, ◌≤◌, true, length, None, option_map, IfOk};
ghost use Rattle.co_dict.specs.Rows.{takes};
ghost use Rattle.co_dict.specs.Refusals.{refusal_in};
ghost use Rattle.co_sdo.specs.Refused.{capacity_at, reading_refusal, initiate_refusal, completion_refusal};
ghost use Rattle.co_sdo.specs.Uploads.{value_at};

use co_dict::{ObjectStore, may_begin, may_complete, place_laws, readable, store_laws};
use co_frame::AbortCode;
use co_value::Key;

// The value of an entry, or why it can't be read, after a single search for it.
#[tactic(auto, unfolding(crate::specs::Refused::reading_refusal))]
pub(crate) fn readable_value<S: ObjectStore>(store: &S, key: Key) -> Result<&[u8], AbortCode>
    ensures refusal { refusal_in result
        ≡ reading_refusal (S.description store.now) (S.contents store.now) key }
    ensures value { IfOk result (λ value. value.now ≡ value_at (S.contents store.now) key) }
    ensures few { IfOk result (λ value. length value.now
        ≤ capacity_at (S.description store.now).rows key) }
{
    store_laws(store);
    place_laws(store);
    let place = readable(store, key)?;
    let Some(value) = store.bytes_at(place) else {
        unreachable!();
    };
    Ok(value)
}

// Why an entry can't be written, as far as initiate shows.
#[tactic(auto, unfolding(crate::specs::Refused::initiate_refusal))]
pub(crate) fn initiate_refusal<S: ObjectStore>(
    store: &S,
    key: Key,
    indicated: Option<u32>,
) -> Option<AbortCode>
    ensures { option_map (λ code. code.0) result
        ≡ initiate_refusal (S.description store.now) key indicated }
{
    match may_begin(store, key, indicated) {
        Ok(()) => None,
        Err(code) => Some(code),
    }
}

// Why these bytes can't be written to an entry when the download completes.
#[tactic(auto, unfolding(crate::specs::Refused::completion_refusal))]
pub(crate) fn completion_refusal<S: ObjectStore>(
    store: &S,
    key: Key,
    indicated: Option<u32>,
    bytes: &[u8],
) -> Option<AbortCode>
    ensures refusal { option_map (λ code. code.0) result
        ≡ completion_refusal (S.description store.now) (S.contents store.now) key indicated bytes.now }
    ensures takes { result ≡ None → takes (S.description store.now).rows key (length bytes.now)
        ≡ true }
{
    match may_complete(store, key, indicated, bytes) {
        Ok(()) => None,
        Err(code) => Some(code),
    }
}
