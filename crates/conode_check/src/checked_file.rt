//! The file of a data sheet, checked.

ghost use Rattle.std.specs.Prelude.{ℕ, ◌≡◌, ◌⊎◌, List, [], Err, IfOk, IfErr, OnOk};
ghost use Rattle.std.specs.Io.KnownBytes.{Appends, Keeps};
ghost use Rattle.std.specs.Process.{exit_status};
ghost use Rattle.co_dict_build.specs.Capacities.{limits_view};
ghost use Rattle.conode_check.specs.CheckEndings.{
  ChecksGood,
  IsCheckEnding,
  SomeThenMemory,
  checked_status,
  memory_line,
};
ghost use Rattle.conode_check.specs.SheetTexts.{checked_lines, is_good};
ghost use Rattle.conode_io.specs.Endings.{WritesStopped, stopped_line};
ghost use Rattle.conode_io.specs.Written.{WritesFrontOrLines, WritesLines};

use crate::sheet_check::check;
use co_dict_build::Limits;
use co_sheet::{FaultKind, SheetFault};
use conode_io::{CmdFault, Ending, Message, file_text, flushed, no_text, say, stopped};
use std::alloc::Global;
use std::io::Write;
use std::process::ExitCode;
use std::rt::Files;

// says that memory ran out
fn say_memory<O: Write>(out: &mut O) -> Ending
    ensures ending { (result ≡ Ending.Said CmdFault.Memory)
        ⊎ (result ≡ Ending.Unsaid CmdFault.Memory) }
    ensures said { result ≡ Ending.Said CmdFault.Memory →
        Appends (O.contents out.old) (O.contents out.new) memory_line }
{
    let fault = SheetFault {
        kind: FaultKind::Memory,
        line: 0,
    };
    match say(Message::Fault(fault), out) {
        Ok(()) => Ending::Said(CmdFault::Memory),
        Err(_) => Ending::Unsaid(CmdFault::Memory),
    }
}

// says why a check ended before all was written
fn say_why<O: Write, E: Write>(fault: CmdFault, out: &mut O, err: &mut E) -> Ending
    ensures ending { (result ≡ Ending.Said fault) ⊎ (result ≡ Ending.Unsaid fault) }
    ensures memory { fault ≡ CmdFault.Memory → result ≡ Ending.Said CmdFault.Memory →
        Appends (O.contents out.old) (O.contents out.new) memory_line }
    ensures unwritable { fault ≡ CmdFault.Write → Keeps (O.contents out.old) (O.contents out.new) }
    ensures on_err { fault ≡ CmdFault.Write → result ≡ Ending.Said fault →
        Appends (E.contents err.old) (E.contents err.new) (stopped_line fault) }
{
    if fault == CmdFault::Memory {
        say_memory(out)
    } else {
        stopped(fault, out, err)
    }
}

/// Checks a text: what it has and its build fault, or its fault as a sheet, goes to `out`. Returns
/// whether it has neither fault. `Err` says how the check ended if not all could be written: `out`
/// then has why, after what was written before, or `err` if `out` can't be written.
pub fn check_text<O: Write, E: Write>(
    alloc: Global,
    text: &[u8],
    node: Option<u8>,
    limits: &Limits<'_>,
    out: &mut O,
    err: &mut E,
) -> Result<bool, Ending>
    // All is written: what the text has and its build fault, or its fault as a sheet.
    ensures good { IfOk result (λ good. good ≡ is_good text.now node (limits_view limits.now)) }
    ensures whole { OnOk result (WritesLines (O.contents out.old) (O.contents out.new)
        (checked_lines text.now node (limits_view limits.now))) }

    // Memory ran out: some of these lines are written, never all, and then the line that says so.
    ensures memory { result ≡ Err (Ending.Said CmdFault.Memory) →
        SomeThenMemory (O.contents out.old) (O.contents out.new)
        (checked_lines text.now node (limits_view limits.now)) }

    // Some or all of these lines are written, perhaps a part of the next, and `err` has why.
    ensures write { result ≡ Err (Ending.Said CmdFault.Write) →
        WritesFrontOrLines (O.contents out.old) (O.contents out.new)
        (checked_lines text.now node (limits_view limits.now)) }
    ensures write_said { result ≡ Err (Ending.Said CmdFault.Write) →
        WritesStopped (E.contents err.old) (E.contents err.new) [] CmdFault.Write }

    // There is no other fault; nothing is said on `err` if all is written.
    ensures err { IfErr result IsCheckEnding }
    ensures quiet { OnOk result (Keeps (E.contents err.old) (E.contents err.new)) }
{
    let outcome = check(alloc, text, node, limits, out);
    match flushed(out, outcome) {
        Ok(good) => Ok(good),
        Err(fault) => Err(say_why(fault, out, err)),
    }
}

// the exit status: 0 if the text is good and all is written
fn status_of(outcome: Result<bool, Ending>) -> ExitCode
    ensures { exit_status result ≡ checked_status outcome }
{
    match outcome {
        Ok(true) => ExitCode::SUCCESS,
        Ok(false) | Err(_) => ExitCode::FAILURE,
    }
}

/// Checks the data sheet of a path, as `check_text` does. A file that can't be read is named on
/// `err`. The status is 0 if there is neither fault and all was written, else 1.
pub fn check_file<R: Files + AllocGlobal, O: Write, E: Write>(
    rt: &R,
    path: &str,
    node: Option<u8>,
    limits: &Limits<'_>,
    out: &mut O,
    err: &mut E,
) -> ExitCode
    ensures status { (exit_status result ≡ 0) ⊎ (exit_status result ≡ 1) }
    ensures good { exit_status result ≡ 0 → (text : List ℕ) ×
        ChecksGood node (limits_view limits.now) (O.contents out.old) (O.contents out.new) text }
{
    match file_text(rt, path) {
        Ok(text) => status_of(check_text(rt.alloc(), text.as_slice(), node, limits, out, err)),
        Err(fault) => no_text(fault, path, out, err),
    }
}
