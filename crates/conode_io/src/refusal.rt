//! What is said if a command can't begin, and its exit status: a file can't be read, a text is no
//! data sheet, a sheet makes no device, or a word of the command line is wrong.

ghost use Rattle.std.specs.Prelude.{◌≡◌};
ghost use Rattle.std.specs.Process.{exit_status};

use crate::fault::CmdFault;
use crate::message::Message;
use crate::output::say;
use co_dict_build::BuildFault;
use co_sheet::{FaultKind, SheetFault};
use std::io::Write;
use std::process::ExitCode;

/// Names a file that can't be read. The status is 1.
pub fn cannot_read<E: Write>(path: &str, err: &mut E) -> ExitCode
    ensures { exit_status result ≡ 1 }
{
    let _ = say(Message::CannotRead(path), err);
    ExitCode::FAILURE
}

/// Says why a text is no data sheet, as `fault 9 BadList line 1`. The status is 1.
pub fn faulty_sheet<O: Write>(fault: SheetFault, out: &mut O) -> ExitCode
    ensures { exit_status result ≡ 1 }
{
    let _ = say(Message::Fault(fault), out);
    ExitCode::FAILURE
}

/// Says that memory ran out while a data sheet was read. The status is 1.
pub fn out_of_memory<O: Write>(out: &mut O) -> ExitCode
    ensures { exit_status result ≡ 1 }
{
    let fault = SheetFault {
        kind: FaultKind::Memory,
        line: 0,
    };
    faulty_sheet(fault, out)
}

/// Says why `file_text` failed: on `out` that memory ran out, or on `err` which file can't be read.
/// The status is 1.
pub fn no_text<O: Write, E: Write>(
    fault: CmdFault,
    path: &str,
    out: &mut O,
    err: &mut E,
) -> ExitCode
    ensures { exit_status result ≡ 1 }
{
    if fault == CmdFault::Memory {
        out_of_memory(out)
    } else {
        cannot_read(path, err)
    }
}

/// Says why a data sheet makes no device, as `build fault 3 BadCobId 1800:01`. The status is 1.
pub fn faulty_build<O: Write>(fault: BuildFault, out: &mut O) -> ExitCode
    ensures { exit_status result ≡ 1 }
{
    let _ = say(Message::BuildFault(fault), out);
    ExitCode::FAILURE
}

/// Says what is wrong with a word of the command line, as `bad key`. The status is 2.
pub fn bad_word<E: Write>(what: &str, err: &mut E) -> ExitCode
    ensures { exit_status result ≡ 2 }
{
    let _ = writeln!(err, "{what}");
    ExitCode::from(2)
}

/// Says that there is no node-ID: none is given, and the sheet has none. The status is 2.
pub fn no_node_id<E: Write>(err: &mut E) -> ExitCode
    ensures { exit_status result ≡ 2 }
{
    bad_word("no node-ID", err)
}
