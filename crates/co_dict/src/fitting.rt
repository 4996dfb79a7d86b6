//! Whether bytes fit an entry and are within its limits.

ghost use Rattle.std.specs.Prelude.{◌≡◌, Some, true, length, OnOk};
ghost use Rattle.co_dict.specs.Rows.{fits, takes};
ghost use Rattle.co_dict.specs.Refusals.{refusal_in};
ghost use Rattle.co_dict.specs.WriteRefusals.{size_refusal, limit_refusal};

use crate::row::Row;
use crate::store::{ObjectStore, store_laws};
use co_frame_aborts::AbortCode;
use co_value::{Key, from_bytes};

impl Row {
    // whether this many bytes are at most the capacity, and at least the width of the type
    fn check_size(&self, size: usize) -> Result<(), AbortCode>
        ensures { refusal_in result ≡ size_refusal self.now size }
    {
        if size > usize::from(self.capacity) {
            return Err(AbortCode::TOO_LONG);
        }
        if size < self.data_type.width().unwrap_or(0) {
            return Err(AbortCode::TOO_SHORT);
        }
        Ok(())
    }

    /// Whether bytes that fit the entry are within its limits: a number above the high limit
    /// (06090031h) or below the low limit (06090032h) is refused; strings and domains have no
    /// limits (CiA 306, object description).
    pub fn check_limits(&self, bytes: &[u8]) -> Result<(), AbortCode>
        requires { fits self.now (length bytes.now) ≡ true }
        ensures { refusal_in result ≡ limit_refusal self.now bytes.now }
    {
        let Ok(number) = from_bytes(self.data_type, bytes) else {
            return Ok(());
        };
        if number > self.high {
            return Err(AbortCode::ABOVE_HIGH_LIMIT);
        }
        if number < self.low {
            return Err(AbortCode::BELOW_LOW_LIMIT);
        }
        Ok(())
    }
}

// whether this many bytes fit the entry of a key
pub(crate) fn check_size<S: ObjectStore>(
    store: &S,
    key: Key,
    row: &Row,
    size: usize,
) -> Result<(), AbortCode>
    requires { (S.description store.now).rows key ≡ Some row.now }
    ensures refusal { refusal_in result ≡ size_refusal row.now size }
    ensures fits { OnOk result (fits row.now size ≡ true) }
    ensures takes { OnOk result (takes (S.description store.now).rows key size ≡ true) }
{
    store_laws(store);
    row.check_size(size)
}
