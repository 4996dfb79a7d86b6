//! The number of an RPDO, or none, in two bytes.

ghost use Rattle.std.specs.Prelude.{◌≡◌, Some, None};

use co_pdo::PdoNumber;
use std::marker::Model;

/// The number of an RPDO, or none, in two bytes: an `Option<PdoNumber>` takes four. Contracts see
/// the option.
#[derive(Clone, Copy)]
pub(crate) struct MaybeRpdo {
    // 512 is none
    number: u16,
}

impl Model for MaybeRpdo {
    ghost use Rattle.std.specs.Prelude.{ℕ, Option};
    ghost use Rattle.co_node_device.specs.MaybeRpdos.{IsUpTo512, fields_of, fields_of-option_of, option_of};

    ghost Value = { Option ℕ };

    ghost view = { option_of };

    ghost invariant = { IsUpTo512 };

    ghost inverse = { fields_of };

    ghost inverse_ok = { fields_of-option_of };
}

impl MaybeRpdo {
    /// None.
    #[inline(always)]
    pub(crate) fn none() -> MaybeRpdo
        ensures { result ≡ None }
    {
        MaybeRpdo { number: 512 }
    }

    /// The RPDO with a number.
    #[inline(always)]
    pub(crate) fn some(number: PdoNumber) -> MaybeRpdo
        ensures { result ≡ Some number }
    {
        MaybeRpdo {
            number: number.get(),
        }
    }

    /// The number, if there is one.
    #[inline(always)]
    pub(crate) fn get(self) -> Option<PdoNumber>
        ensures { result ≡ self }
    {
        PdoNumber::new(self.number)
    }
}
