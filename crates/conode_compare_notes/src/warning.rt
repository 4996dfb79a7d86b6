//! The kinds of warnings.

use co_value::Key;
use conode_compare_values::HeldMismatch;

/// What a user may want to know of a device or a recording, though it is no difference.
#[derive(Clone, Copy)]
pub enum Warning {
    /// `restarted`: a boot-up, and no reset was commanded since the device was seen.
    Restarted,
    /// `stored`: after a boot-up this entry has the first number, and the data sheet the second.
    Stored(Key, u64, u64),
    /// `changed-after-write`: an upload shows another number than the last download wrote.
    Changed(HeldMismatch),
    /// `changed-after-write`: an upload of this entry shows as many other bytes as the last
    /// download wrote.
    ChangedBytes(Key),
    /// `stepped-back`: the stamp of a frame is so many microseconds before that of the last one.
    SteppedBack(u64),
    /// `other-version`: an upload of 1018:03, or of 1000:00, shows the first number, and the data
    /// sheet has the second.
    OtherRevision(Key, u64, u64),
    /// `other-version`: an upload of this entry shows another text than the data sheet has.
    OtherText(Key),
    /// `emcy-code`: the code of an EMCY has no class; with its error register.
    OddCode(u16, u8),
    /// `emcy-history`: an upload of 1003:01 showed the first error code, and the last EMCY had the
    /// second.
    OtherError(u16, u16),
}
