//! Why no more can be read.

/// Why a line reader gives no more lines.
#[derive(Clone, Copy, Debug, PartialEq, Eq)]
pub enum LineFault {
    /// The reader failed.
    Read,
    /// The next line has more than 512 bytes, its end not counted.
    TooLong,
    /// Readers were asked 16,777,216 times.
    NeverEnds,
}

/// Why a text isn't read whole.
#[derive(Clone, Copy, Debug, PartialEq, Eq)]
pub enum StreamFault {
    /// The reader failed.
    Read,
    /// The reader was asked 16,777,216 times, and neither its end nor enough bytes came.
    NeverEnds,
    /// Memory ran out.
    Memory,
}

/// Why a reader isn't asked again.
#[derive(Clone, Copy, PartialEq, Eq)]
pub(crate) enum AskFault {
    /// It failed.
    Read,
    /// It was asked as often as it may be.
    NeverEnds,
}

impl From<AskFault> for LineFault {
    ghost use Rattle.std.specs.Prelude.{◌≡◌};
    ghost use Rattle.co_stream.specs.Faults.{line_fault};

    ghost from_gives = { λ fault e. e ≡ line_fault fault };

    fn from(fault: AskFault) -> LineFault {
        match fault {
            AskFault::Read => LineFault::Read,
            AskFault::NeverEnds => LineFault::NeverEnds,
        }
    }
}

impl From<AskFault> for StreamFault {
    ghost use Rattle.std.specs.Prelude.{◌≡◌};
    ghost use Rattle.co_stream.specs.Faults.{stream_fault};

    ghost from_gives = { λ fault e. e ≡ stream_fault fault };

    fn from(fault: AskFault) -> StreamFault {
        match fault {
            AskFault::Read => StreamFault::Read,
            AskFault::NeverEnds => StreamFault::NeverEnds,
        }
    }
}
