//! Which bits of the error register the end of an error of the CAN interface clears (CiA 301,
//! 7.2.7.1 and 7.5.2.2).

ghost use Rattle.std.specs.Prelude.{◌≡◌, false};
ghost use Rattle.co_node_model.specs.Inputs.{app_view};
ghost use Rattle.bafokun.specs.Ending.{
  by_answer,
  by_change,
  by_event,
  by_seen,
  ended_bits,
  lacks_communication,
  is_generic,
  no_error,
  with_cleared,
  with_error,
};

use crate::happened::byte_in;
use co_node::{AppAnswer, AppEvent, Seen};
use co_profile::keys;

/// Which bits of the error register end when the CAN controller is error active again.
#[derive(Clone, Copy)]
pub struct Ending {
    /// Bit 4, communication error: errors of the CAN interface alone have set it.
    pub communication: bool,
    /// Bit 0, generic error, if no other bit is left: no error is known that has it alone.
    pub generic: bool,
}

// Bit 4 isn't among these.
fn lacks_communication(bits: u8) -> bool
    ensures { result ≡ lacks_communication bits }
{
    bits & 0x10 == 0
}

// None is among these but bit 0.
fn is_generic(bits: u8) -> bool
    ensures { result ≡ is_generic bits }
{
    bits & 0xFE == 0
}

impl Ending {
    /// After the build and after a reset.
    pub(crate) fn no_error() -> Ending
        ensures { result ≡ no_error }
    {
        Ending {
            communication: false,
            generic: true,
        }
    }

    /// The bits of an error register that end.
    pub(crate) fn bits(self, register: u8) -> u8
        ensures { result ≡ ended_bits self register }
    {
        let ended: u8 = if self.communication { 0x10 } else { 0 };
        if self.generic && is_generic(register & !ended) {
            ended | 1
        } else {
            ended
        }
    }

    fn with_error(self, bits: u8) -> Ending
        ensures { result ≡ with_error bits self }
    {
        Ending {
            communication: self.communication && lacks_communication(bits),
            generic: self.generic && !is_generic(bits),
        }
    }

    fn with_cleared(self, bits: u8) -> Ending
        ensures { result ≡ with_cleared bits self }
    {
        Ending {
            communication: self.communication && lacks_communication(bits),
            generic: self.generic || bits & 1 != 0,
        }
    }

    fn after_done(self, event: AppEvent<&[u8]>) -> Ending
        ensures { result ≡ by_event (app_view event.entry) self }
    {
        match event {
            AppEvent::Write(key, bytes) => {
                if key == keys::ERROR_REGISTER {
                    Ending {
                        communication: false,
                        generic: byte_in(bytes, 0) & 1 == 0,
                    }
                } else {
                    self
                }
            }
            AppEvent::Event(_) | AppEvent::Changed(_) => self,
            AppEvent::Raise(_, bits, _) => self.with_error(bits),
            AppEvent::Clear(bits) => self.with_cleared(bits),
        }
    }

    /// After an event of the application, by its answer.
    pub(crate) fn after_event(self, answer: AppAnswer, event: AppEvent<&[u8]>) -> Ending
        ensures { result ≡ by_answer answer (app_view event.entry) self }
    {
        match answer {
            AppAnswer::Done => self.after_done(event),
            AppAnswer::None | AppAnswer::Refused(_) => self,
        }
    }

    /// After a frame, by what was seen of it.
    #[inline(always)]
    pub(crate) fn after_frame(self, seen: Seen) -> Ending
        ensures { result ≡ by_seen seen self }
    {
        match seen {
            Seen::ResetNode | Seen::ResetCommunication => Ending::no_error(),
            Seen::Nothing | Seen::Sync | Seen::Rpdo | Seen::Heartbeat(_) => self,
        }
    }

    /// After a tick at which heartbeats were lost.
    pub(crate) fn after_loss(self) -> Ending
        ensures { result ≡ record self { communication = false } }
    {
        Ending {
            communication: false,
            generic: self.generic,
        }
    }

    /// After a change of the CAN controller, by the error register before it.
    pub(crate) fn after_change(self, change: u8, register: u8) -> Ending
        ensures { result ≡ by_change change register self }
    {
        match change {
            0 => Ending {
                communication: false,
                generic: self.generic,
            },
            1 | 3 => Ending {
                communication: self.communication || lacks_communication(register),
                generic: self.generic,
            },
            _ => self,
        }
    }
}
