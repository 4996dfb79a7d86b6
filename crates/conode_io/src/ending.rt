//! How a command ended.

ghost use Rattle.std.specs.Prelude.{◌≡◌};
ghost use Rattle.std.specs.Process.{exit_status};
ghost use Rattle.conode_io.specs.Endings.{ending_status};

use crate::fault::CmdFault;
use std::process::ExitCode;

/// How a command ended, and whether it said why.
#[derive(Clone, Copy)]
pub enum Ending {
    /// It came to its end, and all that it wrote has gone out.
    Whole,
    /// It stopped, and the line that says why has gone out.
    Said(CmdFault),
    /// It stopped, and the line that says why couldn't be written.
    Unsaid(CmdFault),
}

impl Ending {
    /// The exit status: 0 for a command that came to its end, else 1.
    pub fn status(self) -> ExitCode
        ensures { exit_status result ≡ ending_status self }
    {
        match self {
            Ending::Whole => ExitCode::SUCCESS,
            Ending::Said(_) | Ending::Unsaid(_) => ExitCode::FAILURE,
        }
    }
}
