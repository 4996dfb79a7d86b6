//! The number of a PDO.

ghost use Rattle.std.specs.Prelude.{◌≡◌, ◌<◌, ◌≤◌, MatchOption};
ghost use Rattle.co_profile.specs.PdoNumbers.{count_to};

use std::marker::Model;

/// The number of a PDO of either side, 0 to 511: k of 1400h + k and of 1800h + k (CiA 301, 7.5.2.35
/// and 7.5.2.37). Contracts see the number. The default is 0.
#[derive(Clone, Copy)]
pub struct PdoNumber {
    number: u16,
}

impl Model for PdoNumber {
    ghost use Rattle.std.specs.Prelude.{ℕ, ◌<◌};

    ghost Value = { ℕ };

    ghost view = { λ n. n.number };

    ghost invariant = { λ n. n.number < 512 };

    ghost inverse = { λ number. record { number = number } };
}

impl PdoNumber {
    /// Makes a PDO number of a number below 512; `None` from 512 on.
    #[inline(always)]
    pub fn new(number: u16) -> Option<PdoNumber>
        ensures { MatchOption result (512 ≤ number) (λ k. (k ≡ number) × (number < 512)) }
    {
        if number < 512 {
            Some(PdoNumber { number })
        } else {
            None
        }
    }

    /// Makes a PDO number of a number below 512.
    #[inline(always)]
    pub fn of(number: u16) -> PdoNumber
        requires { number < 512 }
        ensures { result ≡ number }
    {
        PdoNumber { number }
    }

    /// The number.
    #[inline(always)]
    pub fn get(self) -> u16
        ensures value { result ≡ self }
        ensures small { self < 512 }
    {
        self.number
    }

    /// How many numbers there are up to that of the last PDO; 0 if there is no PDO.
    pub fn count_to(last: Option<PdoNumber>) -> u16
        ensures value { result ≡ count_to last }
        ensures few { result ≤ 512 }
    {
        match last {
            Some(last) => last.get() + 1,
            None => 0,
        }
    }
}

impl Default for PdoNumber {
    ghost use Rattle.std.specs.Prelude.{◌≡◌};

    ghost is_default = { λ k. k ≡ 0 };

    fn default() -> PdoNumber {
        PdoNumber { number: 0 }
    }
}
