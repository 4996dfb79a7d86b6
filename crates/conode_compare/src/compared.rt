//! A recording compared with the data sheet of a device.

ghost use Rattle.std.specs.Prelude.{◌≡◌, IfOk, IfSome, OnOk, true};
ghost use Rattle.std.specs.List.{AllPairs};
ghost use Rattle.co_stream.specs.Held.{nothing_held};
ghost use Rattle.co_value.specs.Keys.{is_key_before};
ghost use Rattle.conode_io.specs.TraceTexts.{GaveText};
ghost use Rattle.conode_compare.specs.Taking.{Compares, TakesAll};
ghost use Rattle.conode_compare.specs.Views.{comparison_view};

use crate::comparing::Comparing;
use crate::line::{Lines, let_out};
use crate::writes::Settings;
use conode_compare_report::Report;
use conode_io::CmdFault;
use conode_logs::Form;
use std::alloc::Global;
use std::io::{Read, Write};

// Takes all lines that a reader gives. Its caller owns them, so none of its ends drops them.
fn take_lines<R: Read, W: Write, E: Write>(
    lines: &mut Lines,
    reader: &mut R,
    settings: &Settings<'_, '_>,
    out: &mut W,
    err: &mut E,
) -> Result<(), CmdFault>
    requires rows { AllPairs (λ e f. is_key_before e.key f.key ≡ true) settings.now.rows.now }
    requires held { lines.old.lines ≡ nothing_held }
    ensures { OnOk result (TakesAll (comparison_view settings.now)
        (R.remaining reader.old) (R.remaining reader.new)
        (record { log = lines.old.log; comparing = lines.old.comparing })
        (record { log = lines.new.log; comparing = lines.new.comparing })
        (W.contents out.old) (W.contents out.new)) }
{
    for number in 1..u64::MAX {
        attempt!(let_out(&lines.lines, out));
        match lines.take_line(reader, settings, number, out, err) {
            Ok(Some(())) => {}
            Ok(None) => return Ok(()),
            Err(fault) => return Err(fault),
        }
    }
    Err(CmdFault::NeverEnds)
}

/// Compares a log of the form that is given, or that its first lines show, line by line and in
/// constant memory: for each difference a line is written on `out`. A bad line, or one of more than
/// 512 bytes, is named on `err`, and the rest goes on. Returns what is known at the end. Where
/// something is kept for a document, `report`, no line is written, and what is returned has it.
///
/// `out` is flushed before each read, and not while a whole line is held.
///
/// * `Read`: the reader failed. `NeverEnds`: there are 2^64 - 1 lines.
/// * `Write`: `out` failed. `Memory`: memory ran out.
/// * `BadLine` of 0: it is a data sheet, by a section line before any line that shows the form.
pub fn compare<R: Read, W: Write, E: Write>(
    alloc: Global,
    reader: &mut R,
    settings: &Settings<'_, '_>,
    form: Form,
    report: Option<Report>,
    out: &mut W,
    err: &mut E,
) -> Result<Comparing, CmdFault>
    requires { AllPairs (λ e f. is_key_before e.key f.key ≡ true) settings.now.rows.now }
    // The lines of all differences are written, and this is known at the end.
    ensures known { IfOk result (λ comparing. IfSome (R.remaining reader.old)
        (Compares (comparison_view settings.now) form report
        (W.contents out.old) (W.contents out.new) comparing)) }
    // For every reader: it gave some text, and this holds for that text.
    ensures any_reader { IfOk result (λ comparing.
        GaveText (R.remaining reader.old) (R.remaining reader.new)
        (Compares (comparison_view settings.now) form report
        (W.contents out.old) (W.contents out.new) comparing)) }
{
    let mut lines = Lines::new(alloc, settings, form, report);
    match take_lines(&mut lines, reader, settings, out, err) {
        Ok(()) => Ok(lines.into_comparing()),
        Err(fault) => Err(fault),
    }
}
