//! The file of a trace, decoded.

ghost use Rattle.std.specs.Prelude.{◌≡◌, ◌⊎◌, ℕ, List, [], IfSome, Some, None, is_some};
ghost use Rattle.std.specs.Option.{option_copied};
ghost use Rattle.std.specs.Process.{exit_status};
ghost use Rattle.co_sheet.specs.Content.{IsSheet, SheetContent};
ghost use Rattle.co_sheet_changes.specs.Names.{Names};
ghost use Rattle.conode_io.specs.TraceTexts.{GaveText, trace_in, FailsWithinLine};
ghost use Rattle.conode_decode.specs.DecodedTraces.{
  AreNames,
  DecodesAll,
  lines_of,
  names_in,
  trace_lines,
};
ghost use Rattle.conode_io.specs.Endings.{SomeStopped, WritesStopped};
ghost use Rattle.conode_io.specs.Written.{WritesFrontOrLines, WritesLines};

use crate::decoded_trace::decode_from;
use co_sheet::{Sheet, read};
use conode_io::{
    BufferedRead, CmdFault, Ending, Waits, cannot_read, faulty_sheet, file_text, flushed, no_text,
    stopped,
};
use std::alloc::Global;
use std::fs;
use std::io::{BufReader, Input, Read, Write};
use std::process::ExitCode;
use std::rt::Files;

/// The path that stands for standard input.
const STANDARD_INPUT: &str = "-";

/// Decodes a trace from an input to `out`. If it stops early, it says why: on `out`, after what was
/// decoded before, or on `err` if `out` can't be written.
pub fn decode_input<R: Read, P: Waits<R>, O: Write, E: Write>(
    alloc: Global,
    input: &mut R,
    sheet: Option<&Sheet<'_>>,
    node: Option<u8>,
    out: &mut O,
    err: &mut E,
) -> Ending
    // All of the trace is good, and the lines of its frames are written.
    ensures good { result ≡ Ending.Whole →
        IfSome (R.remaining input.old) (λ text. (trace_in text).bad ≡ None) }
    ensures decoded { result ≡ Ending.Whole → IfSome (R.remaining input.old) (λ text.
        WritesLines (O.contents out.old) (O.contents out.new)
        (trace_lines (names_in (option_copied sheet.entry) node) text)) }
    // For every reader: it gave some text, and this holds for that text.
    ensures whole { result ≡ Ending.Whole →
        GaveText (R.remaining input.old) (R.remaining input.new)
        (DecodesAll (names_in (option_copied sheet.entry) node)
        (O.contents out.old) (O.contents out.new)) }

    // There is a bad line: the lines of the frames before the first one are written, and then it is
    // named.
    ensures bad_line { (number : ℕ) → result ≡ Ending.Said (CmdFault.BadLine number) →
        IfSome (R.remaining input.old) (λ text. (trace_in text).bad ≡ Some number) }
    ensures before { (number : ℕ) → result ≡ Ending.Said (CmdFault.BadLine number) →
        IfSome (R.remaining input.old) (λ text.
        WritesStopped (O.contents out.old) (O.contents out.new)
        (trace_lines (names_in (option_copied sheet.entry) node) text) (CmdFault.BadLine number)) }

    // Memory ran out: some of these lines are written, never all, and then the line that says so.
    ensures memory { result ≡ Ending.Said CmdFault.Memory →
        IfSome (R.remaining input.old) (λ text.
        SomeStopped (O.contents out.old) (O.contents out.new)
        (trace_lines (names_in (option_copied sheet.entry) node) text) CmdFault.Memory) }

    // The input fails within a line; the lines of the frames before it are written, and then the
    // fault.
    ensures unread { (fault : CmdFault) → (fault ≡ CmdFault.Read) ⊎ (fault ≡ CmdFault.NeverEnds) →
        result ≡ Ending.Said fault →
        FailsWithinLine (R.remaining input.old) (R.remaining input.new) (λ taken.
        WritesStopped (O.contents out.old) (O.contents out.new)
        (lines_of (names_in (option_copied sheet.entry) node) taken) fault) }

    // Some or all of these lines are written, perhaps a part of the next, and `err` has why.
    ensures write { result ≡ Ending.Said CmdFault.Write →
        IfSome (R.remaining input.old) (λ text.
        WritesFrontOrLines (O.contents out.old) (O.contents out.new)
        (trace_lines (names_in (option_copied sheet.entry) node) text)) }
    ensures write_said { result ≡ Ending.Said CmdFault.Write →
        WritesStopped (E.contents err.old) (E.contents err.new) [] CmdFault.Write }
{
    let outcome = decode_from::<R, P, O>(alloc, input, sheet, node, out);
    match flushed(out, outcome) {
        Ok(()) => Ending::Whole,
        Err(fault) => stopped(fault, out, err),
    }
}

// decodes a trace through a buffer, to need few system calls
fn decode_buffered<R: Read + Drop, O: Write, E: Write>(
    alloc: Global,
    input: R,
    sheet: Option<&Sheet<'_>>,
    node: Option<u8>,
    out: &mut O,
    err: &mut E,
) -> ExitCode
    ensures status { (exit_status result ≡ 0) ⊎ (exit_status result ≡ 1) }
    ensures whole { exit_status result ≡ 0 → (text : List ℕ) ×
        DecodesAll (names_in (option_copied sheet.entry) node)
        (O.contents out.old) (O.contents out.new) text }
{
    let Ok(mut input) = BufReader::new(alloc, input) else {
        return stopped(CmdFault::Memory, out, err).status();
    };
    decode_input::<BufReader<R>, BufferedRead, O, E>(
        alloc, &mut input, sheet, node, out, err,
    ).status()
}

// decodes the trace of a path, or of standard input for `-`
fn decode_trace<R: Files + AllocGlobal + Input, O: Write, E: Write>(
    rt: &R,
    path: &str,
    sheet: Option<&Sheet<'_>>,
    node: Option<u8>,
    out: &mut O,
    err: &mut E,
) -> ExitCode
    ensures status { (exit_status result ≡ 0) ⊎ (exit_status result ≡ 1) }
    ensures whole { exit_status result ≡ 0 → (text : List ℕ) ×
        DecodesAll (names_in (option_copied sheet.entry) node)
        (O.contents out.old) (O.contents out.new) text }
{
    if path == STANDARD_INPUT {
        return decode_buffered(rt.alloc(), rt.reader(), sheet, node, out, err);
    }
    match fs::open(rt, path) {
        Ok(file) => decode_buffered(rt.alloc(), file, sheet, node, out, err),
        Err(_) => cannot_read(path, err),
    }
}

// decodes the trace of a path with the names of a sheet, if this text is one
fn decode_named<R: Files + AllocGlobal + Input, O: Write, E: Write>(
    rt: &R,
    path: &str,
    text: &[u8],
    node: Option<u8>,
    out: &mut O,
    err: &mut E,
) -> ExitCode
    ensures status { (exit_status result ≡ 0) ⊎ (exit_status result ≡ 1) }
    ensures whole { exit_status result ≡ 0 → (content : SheetContent) ×
        IsSheet text.now content × (trace : List ℕ) ×
        DecodesAll (names_in (Some content) node)
        (O.contents out.old) (O.contents out.new) trace }
{
    match read(rt.alloc(), text) {
        Ok(sheet) => decode_trace(rt, path, Some(&sheet), node, out, err),
        Err(fault) => faulty_sheet(fault, out),
    }
}

/// Decodes the trace of a path, or of standard input for `-`, as `decode_input` does, with the
/// names of a data sheet if its path is given. The sheet is read first: its fault goes to `out`. A
/// file that can't be read is named on `err`. The status is then 1.
pub fn decode_files<R: Files + AllocGlobal + Input, O: Write, E: Write>(
    rt: &R,
    trace: &str,
    sheet: Option<&str>,
    node: Option<u8>,
    out: &mut O,
    err: &mut E,
) -> ExitCode
    ensures status { (exit_status result ≡ 0) ⊎ (exit_status result ≡ 1) }
    // Some trace without a bad line is decoded, with the names of some data sheet, if one is asked
    // for, and all lines are written.
    ensures whole { exit_status result ≡ 0 → (names : Names) × AreNames (is_some sheet.entry) node names ×
        (text : List ℕ) × DecodesAll names (O.contents out.old) (O.contents out.new) text }
{
    let Some(sheet) = sheet else {
        return decode_trace(rt, trace, None, node, out, err);
    };
    match file_text(rt, sheet) {
        Ok(text) => decode_named(rt, trace, text.as_slice(), node, out, err),
        Err(fault) => no_text(fault, sheet, out, err),
    }
}
