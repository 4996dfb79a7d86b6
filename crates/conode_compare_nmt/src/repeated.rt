//! One mistake of error control is one difference: a byte or a length isn't said again.

ghost use Rattle.std.specs.Prelude.{◌≡◌};
ghost use Rattle.conode_compare_nmt.specs.States.{
  is_same_byte,
  is_same_length,
  odd_after,
  odd_finding,
  said_of,
};

use crate::finding::Finding;
use crate::nmt::Nmt;

// the toggle bit of node guarding, bit 7 of its answers
const TOGGLE: u8 = 0x80;

/// What is wrong about a frame of error control, other than the state.
#[derive(Clone, Copy)]
pub enum Odd {
    /// Its byte, which is no state.
    Byte(u8),
    /// Its number of bytes.
    Length(u8),
}

impl Nmt {
    /// Whether the newest frame of error control had this byte, which is no state, too, but for the
    /// toggle bit of node guarding, bit 7.
    pub fn is_same_byte(&self, byte: u8) -> bool
        ensures { result ≡ is_same_byte byte self.now.odd }
    {
        match self.odd {
            Some(Odd::Byte(other)) => byte % TOGGLE == other % TOGGLE,
            _ => false,
        }
    }

    /// Whether the newest frame of error control had this number of bytes, too.
    pub fn is_same_length(&self, length: u8) -> bool
        ensures { result ≡ is_same_length length self.now.odd }
    {
        match self.odd {
            Some(Odd::Length(other)) => length == other,
            _ => false,
        }
    }

    /// The difference of a heartbeat, as it is said: not again of the same byte.
    pub(crate) fn said_of(&self, finding: Option<Finding>) -> Option<Finding>
        ensures { result ≡ said_of self.now.odd finding }
    {
        match finding {
            Some(Finding::NoState(byte)) if self.is_same_byte(byte) => None,
            _ => finding,
        }
    }

    /// What is wrong, other than the state, about a heartbeat with this byte, of which this is found.
    pub fn odd_after(&self, finding: Option<Finding>, byte: u8) -> Option<Odd>
        ensures { result ≡ odd_after finding byte self.now.odd }
    {
        match finding {
            Some(Finding::NoState(other)) => Some(Odd::Byte(other)),
            _ if self.is_same_byte(byte) => self.odd,
            _ => None,
        }
    }

    /// `heartbeat-length`: the difference of error control of another number of bytes than one (CiA
    /// 301, 7.2.8.3.2), not again of the same number.
    pub fn odd_finding(&self, length: u8) -> Option<Finding>
        ensures { result ≡ odd_finding self.now length }
    {
        if self.is_same_length(length) {
            None
        } else {
            Some(Finding::HeartbeatLength(length))
        }
    }
}
