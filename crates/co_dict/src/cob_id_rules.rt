//! What may be written into a COB-ID word.

ghost use Rattle.std.specs.Prelude.{◌≡◌, Some};
ghost use Rattle.co_value.specs.declared.data_type.DataType.TheVariants.{Unsigned32};
ghost use Rattle.co_profile.specs.FixedTypes.{fixed_type_of};
ghost use Rattle.co_dict.specs.Refusals.{refusal_in};
ghost use Rattle.co_dict.specs.CobIdRules.{sync_cob_id_refusal, changes_while_valid, cob_id_refusal};

use crate::cob_id::CobId;
use crate::free_ids::{is_good_sync_word, is_good_word};
use crate::numbers::number_u32;
use crate::store::ObjectStore;
use co_frame_aborts::AbortCode;
use co_value::Key;

// 1005:00: the word must be one that SYNC may have
pub(crate) fn check_sync_cob_id<S: ObjectStore>(store: &S, word: CobId) -> Result<(), AbortCode>
    ensures { refusal_in result
        ≡ sync_cob_id_refusal (S.description store.now).node (S.contents store.now) word.0 }
{
    if is_good_sync_word(store, word) {
        Ok(())
    } else {
        Err(AbortCode::INVALID_VALUE)
    }
}

// whether a valid word would get other bits 29 to 0, and stay valid
fn changes_while_valid(old: CobId, new: CobId) -> bool
    ensures { result ≡ changes_while_valid old.0 new.0 }
{
    old.is_valid() && !new.has_bit_31() && old.0 % 0x4000_0000 != new.0 % 0x4000_0000
}

// 1014:00 and sub-index 1 of a PDO: the word must be one that these may have, and bits 29 to 0 of a
// valid word change only if bit 31 is set
pub(crate) fn check_cob_id<S: ObjectStore>(
    store: &S,
    key: Key,
    word: CobId,
) -> Result<(), AbortCode>
    requires { fixed_type_of key ≡ Some Unsigned32 }
    ensures { refusal_in result
        ≡ cob_id_refusal (S.description store.now).node (S.contents store.now) key word.0 }
{
    if !is_good_word(store, word) {
        return Err(AbortCode::INVALID_VALUE);
    }
    if changes_while_valid(CobId(number_u32(store, key)), word) {
        return Err(AbortCode::NOT_IN_THIS_STATE);
    }
    Ok(())
}
