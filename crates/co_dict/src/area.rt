//! What a reset restores.

ghost use Rattle.std.specs.Prelude.{◌≡◌};
ghost use Rattle.co_dict.specs.Rows.{is_in_area};

use co_profile::IndexRange;
use co_value::Key;

/// The entries that a reset restores to their initial bytes (CiA 301, 7.3.2.2.1).
#[derive(Clone, Copy)]
pub enum Area {
    /// Those of the communication profile, 1000h to 1FFFh: reset communication.
    Communication,
    /// All of them: reset node.
    All,
}

impl Area {
    /// Whether a reset of this area restores the entry of a key.
    pub fn contains(self, key: Key) -> bool
        ensures { result ≡ is_in_area self key }
    {
        match self {
            Area::Communication => IndexRange::COMMUNICATION_PROFILE.contains(key.index),
            Area::All => true,
        }
    }
}
