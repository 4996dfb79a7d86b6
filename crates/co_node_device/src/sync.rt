//! SYNC: the error of its length (CiA 301, 7.2.5).

ghost use Rattle.std.specs.Prelude.{◌≡◌, None, []};
ghost use Rattle.co_node_model.specs.Sync.{sync_length, sync_errors};
ghost use Rattle.std.specs.List.{cons_option};

use co_dict::{ObjectStore, number_u8};
use co_frame::Frame;
use co_node_model::DeviceError;
use co_profile::keys;

/// How many bytes a SYNC has: none, or one for the counter if 1019h is not 0.
fn sync_length<S: ObjectStore>(store: &S) -> usize
    ensures { result ≡ sync_length (S.contents store.now) }
{
    if number_u8(store, keys::SYNC_COUNTER_OVERFLOW) == 0 {
        0
    } else {
        1
    }
}

/// The error of the length of a received SYNC: 8240h if it isn't the length that 1019h requires
/// (CiA 301, 7.2.5).
#[inline(always)]
pub(crate) fn sync_error<S: ObjectStore>(store: &S, sync: &Option<Frame>) -> Option<DeviceError>
    ensures { cons_option result [] ≡ sync_errors (S.contents store.now) sync.now }
{
    let Some(frame) = sync else {
        return None;
    };
    if frame.bytes().len() == sync_length(store) {
        None
    } else {
        Some(DeviceError::UNEXPECTED_SYNC_LENGTH)
    }
}
