//! Why an initial mapping isn't allowed.

use co_value::Key;

/// Why a counted word of a mapping can't be mapped, or its count can't be (CiA 301, 7.5.2.36,
/// 7.5.2.38).
#[derive(Clone, Copy)]
pub enum MappingReason {
    /// Of the count: no word is there at that sub-index or later, up to 64.
    CountsMore,
    /// Of the count: the words map this many bits in all, more than 64.
    TooLong(u16),
    /// In place of the count is FEh or FFh: the PDO is multiplexed, and counts no word.
    Multiplexed,
    /// The word is absent, and a later one is there.
    Missing,
    /// The word is 0.
    Zero,
    /// The word maps an entry that is absent.
    NoEntry,
    /// PDOMapping of the entry is 0 or absent.
    NotMappable,
    /// The entry is a string or a domain.
    NoNumber,
    /// An RPDO maps no index below 2000h.
    BelowProfile,
    /// The entry's access is one with which an RPDO can't write it, or a TPDO can't read it.
    WrongAccess,
    /// The length is 1 bit in place of 8, as for a BOOLEAN.
    OneBit,
    /// The length isn't that of the entry.
    WrongLength,
}

/// A fault of a mapping.
#[derive(Clone, Copy)]
pub struct MappingFault {
    /// The key of the word; for the count sub-index 0.
    pub key: Key,
    pub reason: MappingReason,
}
