//! COB-ID words.

ghost use Rattle.std.specs.Prelude.{◌≡◌, ◌<◌};
ghost use Rattle.co_dict.specs.CobIds.{
  identifier_of,
  has_bit_31,
  is_valid,
  has_11_bits,
  is_sync_consumer,
  is_restricted,
  is_default_sdo,
};

/// A COB-ID word: bit 31 set means that the PDO, the emergency or the SDO channel does not exist,
/// bits 10 to 0 are the identifier (CiA 301, 7.5.2).
#[derive(Clone, Copy)]
pub struct CobId(pub u32);

impl CobId {
    /// The identifier, bits 10 to 0.
    pub fn identifier(self) -> u16
        ensures value { result ≡ identifier_of self.0 }
        ensures below { result < 0x800 }
    {
        (self.0 % 0x800) as u16
    }

    /// Whether bit 31 is set.
    pub fn has_bit_31(self) -> bool
        ensures { result ≡ has_bit_31 self.0 }
    {
        self.0 >= 0x8000_0000
    }

    /// Whether bit 31 is clear and the word is not 0.
    pub fn is_valid(self) -> bool
        ensures { result ≡ is_valid self.0 }
    {
        !self.has_bit_31() && self.0 != 0
    }

    /// Whether bits 29 to 11 are 0: the identifier has 11 bits.
    pub fn has_11_bits(self) -> bool
        ensures { result ≡ has_11_bits self.0 }
    {
        self.0 / 0x800 % 0x8_0000 == 0
    }

    // whether bits 30 to 11 are 0: the identifier has 11 bits, and the device doesn't produce SYNC
    pub(crate) fn is_sync_consumer(self) -> bool
        ensures { result ≡ is_sync_consumer self.0 }
    {
        self.0 / 0x800 % 0x10_0000 == 0
    }
}

/// Whether no COB-ID word may have the identifier: 0 to 7Fh, 101h to 180h, or 6E0h to 7FFh
/// (CiA 301, 7.3.5).
pub fn is_restricted(identifier: u16) -> bool
    ensures { result ≡ is_restricted identifier }
{
    matches!(identifier, 0..=0x7F | 0x101..=0x180 | 0x6E0..=0x7FF)
}

// whether the identifier is one of a default SDO channel
pub(crate) fn is_default_sdo(identifier: u16) -> bool
    ensures { result ≡ is_default_sdo identifier }
{
    matches!(identifier, 0x581..=0x5FF | 0x601..=0x67F)
}
