//! The transmission types of PDOs.

ghost use Rattle.std.specs.Prelude.{◌≡◌};
ghost use Rattle.co_profile.specs.TransmissionTypes as types;

/// The transmission type of a PDO: whether SYNCs or events trigger it (CiA 301, 7.5.2.35 and
/// 7.5.2.37).
#[derive(Clone, Copy, Debug, PartialEq, Eq)]
pub struct TransmissionType(pub u8);

impl TransmissionType {
    /// Whether SYNCs trigger it: 0 to 240.
    #[inline(always)]
    pub fn is_synchronous(self) -> bool
        ensures { result ≡ types.is_synchronous self.0 }
    {
        self.0 <= 240
    }

    /// Whether events trigger it: 254 and 255.
    #[inline(always)]
    pub fn is_event_driven(self) -> bool
        ensures { result ≡ types.is_event_driven self.0 }
    {
        self.0 == 254 || self.0 == 255
    }

    /// Whether it is supported: 0 to 240, 254 and 255.
    pub fn is_supported(self) -> bool
        ensures { result ≡ types.is_supported_type self.0 }
    {
        self.is_synchronous() || self.is_event_driven()
    }
}
