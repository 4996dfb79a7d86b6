//! What is said of a line that can't be converted, and why the next one can't be read.

ghost use Rattle.std.specs.Prelude.{◌≡◌};
ghost use Rattle.std.specs.Process.{exit_status};

use co_stream::ReadFault;
use conode_io::CmdFault;
use conode_logs::{Form, Log};
use std::io::Write;
use std::process::ExitCode;

/// What is wrong with a line that has more than 512 bytes.
pub const TOO_LONG: &str = "it has more than 512 bytes";

/// Names a bad line, and says what is wrong with it. If even this can't be written, only the status
/// shows it.
pub fn name_bad_line<E: Write>(number: u64, words: &str, err: &mut E) {
    let _ = writeln!(err, "line {number}: {words}");
}

/// That a log isn't text, which ends its reading.
pub const NOT_TEXT: CmdFault = CmdFault::BadLine(1);

/// Whether a line that a log's reader doesn't know shows that the log isn't text, as a `.gz`, a
/// `.pcap` or a text in UTF-16: the line has a byte 0, and no line before it shows the form of a log.
pub fn is_not_text(form: Form, line: &[u8]) -> bool {
    match form {
        Form::Unknown => line.contains(&0),
        _ => false,
    }
}

/// Says that a log isn't text, and what to do. The status is 1.
pub fn say_not_text<E: Write>(err: &mut E) -> ExitCode
    ensures { exit_status result ≡ 1 }
{
    let _ = writeln!(err, "{SAYS_NOT_TEXT}");
    ExitCode::FAILURE
}

/// What is said of a log that isn't text.
pub const SAYS_NOT_TEXT: &str =
    "the recording isn't text: unpack it, write it in UTF-8, or make a log of it by another tool, \
     as can_logconvert; with --log FORM its lines are read all the same";

/// What is said of a stamp that steps back in what candump shows on a screen.
const STEPS_BACK: &str =
    "the stamp steps back; a log of candump -t d is read with --log screen-delta";

/// Says so of the first line whose stamp is before the last one, in what candump shows on a screen:
/// there `-t d` looks as `-t z` does. `clock` is that of the log before the line; `is_said` is whether
/// it was said.
pub fn name_step_back<E: Write>(
    is_said: &mut bool,
    clock: u64,
    log: Log,
    number: u64,
    err: &mut E,
) {
    if *is_said || log.clock >= clock {
        return;
    }
    if let Form::Screen = log.form {
        name_bad_line(number, STEPS_BACK, err);
        *is_said = true;
    }
}

/// Why the next line can't be read.
pub fn read_fault(fault: ReadFault) -> CmdFault {
    match fault {
        ReadFault::Read => CmdFault::Read,
        ReadFault::NeverEnds => CmdFault::NeverEnds,
    }
}
