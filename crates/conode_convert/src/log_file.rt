//! The file of a log, converted.

ghost use Rattle.std.specs.Prelude.{ℕ, ◌≡◌, ◌⊎◌, List, IfSome};
ghost use Rattle.std.specs.Process.{exit_status};
ghost use Rattle.conode_io.specs.TraceTexts.{GaveText};
ghost use Rattle.conode_convert.specs.Taking.{Converts};

use crate::bad_lines::say_not_text;
use crate::converted::convert;
use conode_io::{CmdFault, cannot_read, flushed, stopped};
use conode_logs::Form;
use std::alloc::Global;
use std::fs;
use std::io::{Input, Read, Write};
use std::process::ExitCode;
use std::rt::Files;

/// The path that stands for standard input.
const STANDARD_INPUT: &str = "-";

// Converts an input, and says on `err` how many lines are bad, if any; or says why it stopped
// early.
fn convert_input<R: Read, O: Write, E: Write>(
    alloc: Global,
    input: &mut R,
    form: Form,
    out: &mut O,
    err: &mut E,
) -> ExitCode
    ensures status { (exit_status result ≡ 0) ⊎ (exit_status result ≡ 1) }
    // All lines are converted and written, and none of them is bad.
    ensures known { exit_status result ≡ 0 → IfSome (R.remaining input.old)
        (Converts form (O.contents out.old) (O.contents out.new) 0) }
    ensures any_reader { exit_status result ≡ 0 →
        GaveText (R.remaining input.old) (R.remaining input.new)
        (Converts form (O.contents out.old) (O.contents out.new) 0) }
{
    let outcome = convert(alloc, input, form, out, err);
    match flushed(out, outcome) {
        Ok(0) => ExitCode::SUCCESS,
        Ok(bad) => {
            let _ = writeln!(err, "bad lines: {bad}");
            ExitCode::FAILURE
        }
        Err(CmdFault::BadLine(_)) => say_not_text(err),
        Err(fault) => stopped(fault, out, err).status(),
    }
}

/// Converts the log of a path, or of standard input for `-`: its frames go to `out` as `candump -L`
/// writes them. Bad lines, and a file that can't be read, are named on `err`. The status is 0 if
/// all lines are good, else 1.
pub fn convert_file<R: Files + AllocGlobal + Input, O: Write, E: Write>(
    rt: &R,
    path: &str,
    form: Form,
    out: &mut O,
    err: &mut E,
) -> ExitCode
    ensures status { (exit_status result ≡ 0) ⊎ (exit_status result ≡ 1) }
    // A text was read: all its lines are converted and written, and none of them is bad.
    ensures whole { exit_status result ≡ 0 → (text : List ℕ) ×
        Converts form (O.contents out.old) (O.contents out.new) 0 text }
{
    if path == STANDARD_INPUT {
        return convert_input(rt.alloc(), &mut rt.reader(), form, out, err);
    }
    match fs::open(rt, path) {
        Ok(mut file) => convert_input(rt.alloc(), &mut file, form, out, err),
        Err(_) => cannot_read(path, err),
    }
}
