//! Requests that may take long, and that a client left before their answer.

ghost use Rattle.std.specs.Prelude.{◌≡◌};
ghost use Rattle.conode_compare_transfers.specs.Dialogues.{
  awaited_count,
  is_awaited,
  left_after,
  left_after_answer,
  nothing_left,
  one_more,
};

use crate::times::is_past;

/// How long their answers are awaited, in ms.
const SLOW_LIMIT: u32 = 60_000;

/// The requests that may take long and were left before their answer.
#[derive(Clone, Copy)]
pub struct Left {
    /// How many they are, up to 255.
    pub count: u8,
    /// The stamp at which the newest one was left.
    pub newest: u64,
}

// one more, up to 255
fn one_more(count: u8) -> u8
    ensures { result ≡ one_more count }
{
    if count < 255 { count + 1 } else { count }
}

impl Left {
    /// None was left.
    pub fn new() -> Left
        ensures { result ≡ nothing_left }
    {
        Left {
            count: 0,
            newest: 0,
        }
    }

    /// Whether one of them is awaited still: for a minute, and not where the stamps step back.
    pub fn is_awaited(self, micros: u64) -> bool
        ensures { result ≡ is_awaited self micros }
    {
        self.count > 0 && self.newest <= micros && !is_past(self.newest, SLOW_LIMIT, micros)
    }

    fn awaited_count(self, micros: u64) -> u8
        ensures { result ≡ awaited_count self micros }
    {
        if self.is_awaited(micros) {
            self.count
        } else {
            0
        }
    }

    /// After a frame that answers one of them, or in its turn a request after them.
    pub(crate) fn after_answer(self, answers: bool, turns: bool) -> Left
        ensures { result ≡ left_after_answer answers turns self }
    {
        if turns {
            Left::new()
        } else if answers {
            Left {
                count: self.count.saturating_sub(1),
                newest: self.newest,
            }
        } else {
            self
        }
    }

    /// After a frame by which one more is left, or none.
    pub(crate) fn after(self, leaves: bool, micros: u64) -> Left
        ensures { result ≡ left_after leaves micros self }
    {
        if leaves {
            Left {
                count: one_more(self.awaited_count(micros)),
                newest: micros,
            }
        } else {
            self
        }
    }
}
