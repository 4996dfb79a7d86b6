//! The access of entries.

/// How an entry may be accessed, by the word of its AccessType (CiA 306, object description).
#[derive(Clone, Copy, Debug, PartialEq, Eq)]
pub enum Access {
    /// `ro`: read only.
    Ro,
    /// `wo`: write only.
    Wo,
    /// `rw`: read and write.
    Rw,
    /// `rwr`: read and write, and may be mapped into a TPDO.
    Rwr,
    /// `rww`: read and write, and may be mapped into an RPDO.
    Rww,
    /// `const`: read only, and never changed.
    Constant,
}
