//! The frames of a recording, counted.

ghost use Rattle.std.specs.Prelude.{IfOk, IfSome};
ghost use Rattle.conode_io.specs.TraceTexts.{GaveText};
ghost use Rattle.conode_stats.specs.Taking.{CountsText};

use crate::step::Counting;
use conode_io::CmdFault;
use conode_logs::Form;
use conode_stats_counts::Counts;
use std::alloc::Global;
use std::io::{Read, Write};

/// The counts of a recording.
#[derive(Drop)]
pub struct Recording {
    /// Its frames.
    pub counts: Counts,
    /// How many of its lines are bad.
    pub bad: u64,
}

/// Counts the frames of a log line by line, in bounded memory. The log has this form; if that is
/// unknown, its first lines show it. A bad line, or one of more than 512 bytes, is named on `err`
/// with its number and what is wrong with it, and the next line is read. A last line without a line
/// feed counts as bad only if it is too long: a recording that is stopped ends within a line.
///
/// * `Read`: the reader failed. `NeverEnds`: there are 2^64 - 1 lines. `Memory`: memory ran out.
/// * `BadLine` of 0: it is a data sheet, by a section line before any line that shows the form.
pub fn count<R: Read, E: Write>(
    alloc: Global,
    reader: &mut R,
    form: Form,
    err: &mut E,
) -> Result<Recording, CmdFault>
    // The counts are those of the frames of the bytes, by definition.
    ensures known { IfOk result (λ recording. IfSome (R.remaining reader.old)
        (CountsText form recording.counts recording.bad)) }
    // For any reader: it gave a text, and this holds of that text.
    ensures any_reader { IfOk result (λ recording.
        GaveText (R.remaining reader.old) (R.remaining reader.new)
        (CountsText form recording.counts recording.bad)) }
{
    let mut counting = Counting::new(alloc, form);
    let mut bad: u64 = 0;
    for number in 1..u64::MAX {
        match counting.take_line(alloc, reader, number, err)? {
            Some(more) => bad += more,
            None => {
                let counts = counting.into_counts();
                return Ok(Recording { counts, bad });
            }
        }
    }
    Err(CmdFault::NeverEnds)
}
