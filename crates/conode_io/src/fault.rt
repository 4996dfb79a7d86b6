//! Why a command ended early.

use arrayvec::ArrayString;
use itoa::Buffer;
use std::alloc::AllocError;
use thiserror::Error;

/// Why a command ended before its input did.
#[derive(Clone, Copy, Debug, PartialEq, Eq, Error)]
pub enum CmdFault {
    /// The reader failed.
    #[error("Read")]
    Read,
    /// The writer failed.
    #[error("Write")]
    Write,
    /// A line, counted from 1, is no line of a trace.
    #[error("BadLine {0}")]
    BadLine(usize),
    /// Memory ran out.
    #[error("Memory")]
    Memory,
    /// The reader was asked 16,777,216 times, and the input didn't end.
    #[error("NeverEnds")]
    NeverEnds,
}

// Written by hand, since a derived one doesn't say which fault it gives.
impl From<AllocError> for CmdFault {
    ghost use Rattle.std.specs.Prelude.{◌≡◌};
    ghost use Rattle.conode_io.specs.declared.fault.CmdFault.TheVariants.{Memory};

    ghost from_gives = { λ _ fault. fault ≡ Memory };

    fn from(_: AllocError) -> CmdFault {
        CmdFault::Memory
    }
}

impl CmdFault {
    ghost use Rattle.std.specs.Prelude.{◌≡◌};
    ghost use Rattle.conode_io.specs.Messages.{cmd_fault_number, cmd_fault_text};

    /// The number of the fault, from 1 to 5.
    pub fn number(self) -> u8
        ensures { result ≡ cmd_fault_number self }
    {
        match self {
            CmdFault::Read => 1,
            CmdFault::Write => 2,
            CmdFault::BadLine(_) => 3,
            CmdFault::Memory => 4,
            CmdFault::NeverEnds => 5,
        }
    }

    /// The fault in words: its name, and for a bad line its number, as `BadLine 3`.
    pub fn text(self) -> ArrayString<32>
        ensures { result.bytes ≡ cmd_fault_text self }
    {
        let mut text = ArrayString::new();
        match self {
            CmdFault::Read => text.push_str("Read"),
            CmdFault::Write => text.push_str("Write"),
            CmdFault::BadLine(line) => {
                let mut digits = Buffer::new();
                text.push_str("BadLine ");
                text.push_str(digits.format(line));
            }
            CmdFault::Memory => text.push_str("Memory"),
            CmdFault::NeverEnds => text.push_str("NeverEnds"),
        }
        text
    }
}
