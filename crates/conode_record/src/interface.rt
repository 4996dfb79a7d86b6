//! The name of an interface.

ghost use Rattle.std.specs.Prelude.{◌≡◌, ◌≤◌, length};

use std::marker::Model;

/// The name of a CAN interface, as `can0`: 1 to 15 bytes without a blank. Contracts see its bytes.
#[derive(Drop)]
pub struct Interface<'a> {
    name: &'a [u8],
}

impl<'a> Model for Interface<'a> {
    ghost use Rattle.std.specs.Prelude.{ℕ, List, length, ◌≤◌};

    ghost Value = { List ℕ };

    ghost view = { λ interface. interface.name.now };

    ghost invariant = { λ interface. length interface.name.now ≤ 15 };
}

impl<'a> Interface<'a> {
    pub(crate) fn new(name: &'a [u8]) -> Interface<'a>
        requires { length name.now ≤ 15 }
        ensures { result ≡ name.now }
    {
        Interface { name }
    }

    /// Its bytes.
    pub fn bytes(&self) -> &'a [u8]
        ensures bytes { result.now ≡ self.now }
        ensures few { length result.now ≤ 15 }
    {
        self.name
    }
}
