//! RPDOs and SYNCs of another length.

/// A frame to the device with another number of bytes, for which ours sends an EMCY.
#[derive(Clone, Copy)]
pub enum LengthError {
    /// 8210h: an RPDO is too short.
    ShortRpdo,
    /// 8220h: an RPDO is too long.
    LongRpdo,
    /// 8240h: a SYNC has another length.
    OddSync,
}
