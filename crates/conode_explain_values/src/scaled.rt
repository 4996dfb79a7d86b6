//! A number in powers of ten.

ghost use Rattle.std.specs.Prelude.{◌≡◌, ◌+◌, ◌*◌, ◌≤◌, ◌<◌, ◌^◌};
ghost use Rattle.conode_explain_values.specs.Reals.{doubled, half, halved, power_of_two, rounded, twice};

/// The power of ten that is counted as 10 ^ 0.
pub(crate) const ORIGIN: u16 = 1100;

/// From here on there is no room for one more digit.
const FULL: u128 = 0x2000_0000_0000_0000_0000_0000_0000_0000;

/// The number `digits` × 10 ^ (`tens` - 1100), to 37 digits.
#[derive(Clone, Copy)]
pub(crate) struct Scaled {
    pub(crate) digits: u128,
    pub(crate) tens: u16,
}

/// A power of ten.
#[tactic(auto, using(crate::proofs::Powers::powers))]
pub(crate) fn power_of_ten(exponent: u16) -> u128
    requires { exponent ≤ 38 }
    ensures power { result ≡ 10 ^ exponent }
    ensures some { 1 ≤ result }
    ensures most { result ≤ 10 ^ 38 }
{
    10u128.pow(exponent as u32)
}

impl Scaled {
    fn half(self) -> Scaled
        requires { 1 ≤ self.tens }
        ensures half { result ≡ half self }
        ensures room { result.digits < 5 * 2 ^ 125 }
        ensures tens { (result.tens ≤ self.tens) × (self.tens ≤ result.tens + 1) }
    {
        if self.digits < FULL {
            Scaled {
                digits: 5 * self.digits,
                tens: self.tens - 1,
            }
        } else {
            Scaled {
                digits: self.digits / 2,
                tens: self.tens,
            }
        }
    }

    fn twice(self) -> Scaled
        requires { self.tens < 65535 }
        ensures twice { result ≡ twice self }
        ensures room { result.digits < 5 * 2 ^ 125 }
        ensures tens { (self.tens ≤ result.tens) × (result.tens ≤ self.tens + 1) }
    {
        if self.digits < FULL {
            Scaled {
                digits: 2 * self.digits,
                tens: self.tens,
            }
        } else {
            Scaled {
                digits: self.digits / 5,
                tens: self.tens + 1,
            }
        }
    }

    #[tactic(auto, unfolding(crate::specs::Reals::halved))]
    fn halved(self, count: u16) -> Scaled
        requires tens { count ≤ self.tens }
        requires room { self.digits < 5 * 2 ^ 125 }
        ensures room { result.digits < 5 * 2 ^ 125 }
        ensures halved { result ≡ halved count self }
        ensures tens { result.tens ≤ self.tens }
    {
        let mut number = self;
        let mut left = count;
        while left > 0 {
            number = number.half();
            left -= 1;
        }
        number
    }

    #[tactic(auto, unfolding(crate::specs::Reals::doubled))]
    fn doubled(self, count: u16) -> Scaled
        requires tens { self.tens + count ≤ 65535 }
        requires room { self.digits < 5 * 2 ^ 125 }
        ensures room { result.digits < 5 * 2 ^ 125 }
        ensures doubled { result ≡ doubled count self }
        ensures tens { result.tens ≤ self.tens + count }
    {
        let mut number = self;
        let mut left = count;
        while left > 0 {
            number = number.twice();
            left -= 1;
        }
        number
    }

    /// The number `significand` × 2 ^ `up` / 2 ^ `down`.
    pub(crate) fn power_of_two(significand: u64, up: u16, down: u16) -> Scaled
        requires up { up ≤ 2047 }
        requires down { down ≤ 1075 }
        ensures scaled { result ≡ power_of_two significand up down }
        ensures tens { result.tens ≤ 3147 }
        ensures room { result.digits < 5 * 2 ^ 125 }
    {
        let number = Scaled {
            digits: significand as u128,
            tens: ORIGIN,
        };
        number
            .halved(down.saturating_sub(up))
            .doubled(up.saturating_sub(down))
    }

    /// The digits rounded to a multiple of a power of ten, and counted in that unit.
    pub(crate) fn rounded(self, places: u16) -> u128
        requires places { places ≤ 38 }
        requires room { self.digits < 5 * 2 ^ 125 }
        ensures { result ≡ rounded places self.digits }
    {
        let unit = power_of_ten(places);
        (self.digits + unit / 2) / unit
    }
}
