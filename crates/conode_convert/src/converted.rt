//! A log converted: each of its frames on a line as `candump -L` writes it.

ghost use Rattle.std.specs.Prelude.{IfOk, IfSome};
ghost use Rattle.conode_io.specs.TraceTexts.{GaveText};
ghost use Rattle.conode_convert.specs.Taking.{Converts};

use crate::step::Converting;
use conode_io::CmdFault;
use conode_logs::Form;
use std::alloc::Global;
use std::io::{Read, Write};

/// Converts a log line by line, in constant memory, and returns the number of bad lines. The log
/// has this form; if that is unknown, its first lines show it. For each frame a line is written on
/// `out`, as `candump -L` writes it. A bad line, or one of more than 512 bytes, is named on `err`
/// with its number and what is wrong with it, and the next line is read. A last line without a line
/// feed counts only if it is too long: a recording that is stopped ends within a line.
///
/// `out` is flushed before each read, but not while a whole line is held.
///
/// * `Read`: the reader failed. `NeverEnds`: there are 2^64 - 1 lines.
/// * `Write`: `out` failed. `Memory`: memory ran out.
/// * `NOT_TEXT`: a line has a byte 0, and no line before it shows the form of a log.
pub fn convert<R: Read, W: Write, E: Write>(
    alloc: Global,
    reader: &mut R,
    form: Form,
    out: &mut W,
    err: &mut E,
) -> Result<u64, CmdFault>
    // All lines are converted, and so many of them are bad.
    ensures known { IfOk result (λ bad. IfSome (R.remaining reader.old)
        (Converts form (W.contents out.old) (W.contents out.new) bad)) }
    // For any reader: it gave a text, and this holds of that text.
    ensures any_reader { IfOk result (λ bad.
        GaveText (R.remaining reader.old) (R.remaining reader.new)
        (Converts form (W.contents out.old) (W.contents out.new) bad)) }
{
    let mut converting = Converting::new(alloc, form);
    let mut bad: u64 = 0;
    for number in 1..u64::MAX {
        converting.let_out(out)?;
        match converting.take_line(reader, number, out, err)? {
            Some(more) => bad += more,
            None => return Ok(bad),
        }
    }
    Err(CmdFault::NeverEnds)
}
