//! A recording explained: each of its frames on a line.

ghost use Rattle.std.specs.Prelude.{◌≡◌, ◌==◌, ◌&&◌, IfOk, IfSome};
ghost use Rattle.co_stream.specs.Held.{nothing_held};
ghost use Rattle.conode_convert.specs.Converted.{at_start};
ghost use Rattle.conode_io.specs.TraceTexts.{GaveText};
ghost use Rattle.conode_explain.specs.Explained.{nothing_known};
ghost use Rattle.conode_explain.specs.Taking.{Explains};
ghost use Rattle.conode_explain.specs.Sheets.{sheets_of};

use crate::progress::Layout;
use crate::settings::Settings;
use crate::step::Explaining;
use conode_io::CmdFault;
use std::alloc::Global;
use std::io::{Read, Write};

// whether a line with so many bad ones ends it
fn ends(form: &Layout<'_>, more: u64) -> bool
    ensures { result ≡ (form.now.stop && (more == 1)) }
{
    form.stop && more == 1
}

// explains all lines, where none was taken yet
fn explain_all<R: Read, W: Write, E: Write>(
    explaining: &mut Explaining,
    reader: &mut R,
    settings: &Settings<'_, '_, '_, '_>,
    out: &mut W,
    err: &mut E,
) -> Result<u64, CmdFault>
    requires lines { explaining.old.lines ≡ nothing_held }
    requires log { explaining.old.log ≡ at_start settings.now.form.log }
    requires progress { explaining.old.progress ≡ nothing_known }
    ensures known { IfOk result (λ bad. IfSome (R.remaining reader.old)
        (Explains settings.now.form (sheets_of settings.now)
        (W.contents out.old) (W.contents out.new) bad)) }
    ensures any_reader { IfOk result (λ bad.
        GaveText (R.remaining reader.old) (R.remaining reader.new)
        (Explains settings.now.form (sheets_of settings.now)
        (W.contents out.old) (W.contents out.new) bad)) }
{
    let mut bad: u64 = 0;
    for number in 1..u64::MAX {
        attempt!(explaining.let_out(out));
        match attempt_value!(explaining.take_line(reader, settings, number, out, err)) {
            Some(more) => {
                bad += more;
                if ends(&settings.form, more) {
                    attempt!(explaining.finish(settings, out));
                    return Ok(bad);
                }
            }
            None => {
                attempt!(explaining.finish(settings, out));
                return Ok(bad);
            }
        }
    }
    Err(CmdFault::NeverEnds)
}

/// Explains a log of the form that is given, or that its first lines show, line by line and in
/// constant memory: for each frame a line is written on `out`, with its times and what it says, and
/// after it one for the SDO transfer that ended with it; at the end one for each that is open. A
/// bad line, or one of more than 512 bytes, is named on `err` with its number and what is wrong
/// with it, and the rest goes on, or where the form says so the recording ends there. Returns the
/// number of bad lines; a last line that no line feed ends is counted only where it is too long,
/// since whoever stops a recording cuts it off there.
///
/// `out` is flushed before each read, and not while a whole line is held.
///
/// * `Read`: the reader failed. `NeverEnds`: there are 2^64 - 1 lines.
/// * `Write`: `out` failed. `Memory`: memory ran out.
/// * `BadLine` of 0: it is a data sheet, by a section line before any line that shows the form.
pub fn explain<R: Read, W: Write, E: Write>(
    alloc: Global,
    reader: &mut R,
    settings: &Settings<'_, '_, '_, '_>,
    out: &mut W,
    err: &mut E,
) -> Result<u64, CmdFault>
    // The lines of all frames are written, and those of transfers, and so many lines are bad.
    ensures known { IfOk result (λ bad. IfSome (R.remaining reader.old)
        (Explains settings.now.form (sheets_of settings.now)
        (W.contents out.old) (W.contents out.new) bad)) }
    // For every reader: it gave some text, and this holds for that text.
    ensures any_reader { IfOk result (λ bad.
        GaveText (R.remaining reader.old) (R.remaining reader.new)
        (Explains settings.now.form (sheets_of settings.now)
        (W.contents out.old) (W.contents out.new) bad)) }
{
    let mut explaining = Explaining::new(alloc, settings.form.log);
    explain_all(&mut explaining, reader, settings, out, err)
}
