//! The two directions of process data.

/// Whether a PDO is received by the device or transmitted by it (CiA 301, 7.2.2).
#[derive(Clone, Copy, PartialEq, Eq)]
pub enum Side {
    /// 1400h to 15FFh with the mapping of 1600h to 17FFh.
    Rpdo,
    /// 1800h to 19FFh with the mapping of 1A00h to 1BFFh.
    Tpdo,
}
