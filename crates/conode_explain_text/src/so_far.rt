//! What a recording showed so far: stamps and interfaces.

ghost use Rattle.std.specs.Prelude.{◌≡◌};
ghost use Rattle.conode_explain_text.specs.SoFar.{nothing_seen, times_at, shows_interface, seen_with};

use arrayvec::ArrayVec;
use conode_record::Record;
use std::marker::Model;

/// The stamp of a frame, and those that its times are counted from, in microseconds.
#[derive(Clone, Copy)]
pub struct Times {
    /// The stamp of the recording's first frame.
    pub first: u64,
    /// The stamp of the frame before; of the first frame its own.
    pub before: u64,
    /// The stamp of the frame.
    pub now: u64,
}

/// What a recording showed so far: the stamps of its first and last frame, and the interface of the
/// first; and whether a frame of another interface came. Contracts see it as a record of these.
#[derive(Drop)]
pub struct Seen {
    started: bool,
    first: u64,
    last: u64,
    interface: ArrayVec<u8, 15>,
    several: bool,
}

impl Model for Seen {
    ghost use Rattle.conode_explain_text.specs.SoFar.{SoFar};

    ghost Value = { SoFar };

    ghost view = { λ seen. record {
      started = seen.started;
      first = seen.first;
      last = seen.last;
      interface = seen.interface.items;
      several = seen.several;
    } };
}

impl Seen {
    /// No frame came.
    pub fn new() -> Seen
        ensures { result ≡ nothing_seen }
    {
        Seen {
            started: false,
            first: 0,
            last: 0,
            interface: ArrayVec::new(),
            several: false,
        }
    }

    /// The times of a frame with this stamp.
    pub fn times(&self, micros: u64) -> Times
        ensures { result ≡ times_at self.now micros }
    {
        if self.started {
            Times {
                first: self.first,
                before: self.last,
                now: micros,
            }
        } else {
            Times {
                first: micros,
                before: micros,
                now: micros,
            }
        }
    }

    /// The stamp of the last frame, in microseconds; 0 where none came.
    pub fn last(&self) -> u64
        ensures { result ≡ self.now.last }
    {
        self.last
    }

    /// Whether the line of a frame of this interface names the interface: there are several.
    pub fn shows_interface(&self, name: &[u8]) -> bool
        ensures { result ≡ shows_interface self.now name.now }
    {
        self.several || (self.started && self.interface.as_slice() != name)
    }

    /// Adds a frame.
    pub fn add(&mut self, frame: &Record<'_>)
        ensures { self.new ≡ seen_with self.old frame.now.micros frame.now.interface }
    {
        let name = frame.interface.bytes();
        if self.started {
            self.several = self.shows_interface(name);
        } else {
            self.started = true;
            self.first = frame.micros;
            self.interface.clear();
            self.interface.try_extend_from_slice(name).unwrap();
            self.several = false;
        }
        self.last = frame.micros;
    }
}
