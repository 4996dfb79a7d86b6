//! Decoding a trace: each frame with what it says.

ghost use Rattle.std.specs.Prelude.{◌≡◌, ◌⊎◌, ℕ, Bool, true, false, [], OnOk, IfErr, IfSome, Err, Some, None};
ghost use Rattle.std.specs.Option.{option_copied};
ghost use Rattle.co_sheet_changes.specs.Names.{names_view};
ghost use Rattle.co_stream.specs.Nexts.{new_reader};
ghost use Rattle.co_stream.specs.Readings.{Gave};
ghost use Rattle.conode_io.specs.TraceTexts.{trace_in, FailsWithinLine, GaveText};
ghost use Rattle.conode_decode.specs.DecodedTraces.{names_in, said_lines, trace_lines, lines_of, Decoded};
ghost use Rattle.conode_io.specs.Written.{WritesFront, WritesFrontOrLines, WritesLines, WritesSome};

use crate::line::set_decoded_line;
use co_sheet::Sheet;
use co_sheet_changes::Names;
use co_stream::LineReader;
use conode_io::{AnyRead, CmdFault, Waits, hand_over, let_out, line_fault};
use conode_trace::{BadLine, TimedLine, TraceLine, TraceProgress};
use std::alloc::Global;
use std::io::{Read, Write};

// writes the line of a frame, if this line of the trace has one
#[tactic(auto, using(conode_io::proofs::WriteLemmas::line_alone, conode_io::proofs::WriteLemmas::front_alone, conode_io::proofs::WriteLemmas::no_lines))]
fn write_line<W: Write>(
    text: &mut String,
    names: Names<'_, '_>,
    timed: &TimedLine<'_>,
    writer: &mut W,
) -> Result<(), CmdFault>
    ensures ok { OnOk result (WritesLines (W.contents writer.old) (W.contents writer.new)
        (said_lines (names_view names.entry) timed.now.number timed.now.said)) }
    ensures write { result ≡ Err CmdFault.Write →
        WritesFront (W.contents writer.old) (W.contents writer.new)
        (said_lines (names_view names.entry) timed.now.number timed.now.said) }
    ensures memory { result ≡ Err CmdFault.Memory →
        WritesSome (W.contents writer.old) (W.contents writer.new)
        (said_lines (names_view names.entry) timed.now.number timed.now.said) }
    ensures err { IfErr result (λ fault. (fault ≡ CmdFault.Write) ⊎ (fault ≡ CmdFault.Memory)) }
{
    let TraceLine::Data { frame, .. } = &timed.said else {
        return Ok(());
    };
    set_decoded_line(text, names, timed.number, frame)?;
    hand_over(text.as_bytes(), writer)
}

// decodes line by line, with a new line reader
fn decode_all<R: Read, P: Waits<R>, W: Write>(
    alloc: Global,
    lines: &mut LineReader,
    reader: &mut R,
    names: Names<'_, '_>,
    writer: &mut W,
) -> Result<(), CmdFault>
    requires { lines.old ≡ new_reader }
    ensures gave { (ended : Bool) × Gave false ended
        (R.remaining reader.old) (R.remaining reader.new) (λ had has.
        Decoded (names_view names.entry) had has
        (W.contents writer.old) (W.contents writer.new) result) }
    ensures read { result ≡ Err CmdFault.Read → lines.new.failed ≡ true }
    ensures never_ends { result ≡ Err CmdFault.NeverEnds → lines.new.asks ≡ 0 }
{
    let mut text = String::new(alloc);
    let mut progress = TraceProgress::new();
    // the label names the loop's invariant
    'trace: loop {
        let_out::<R, P, W>(lines, reader, writer)?;
        match lines.next(reader) {
            Ok(Some(line)) => match progress.read(line) {
                Ok(timed) => write_line(&mut text, names, &timed, writer)?,
                Err(BadLine(number)) => return Err(CmdFault::BadLine(number)),
            },
            Ok(None) => return Ok(()),
            Err(fault) => return Err(line_fault(fault, &progress)),
        }
    }
}

/// Decodes a trace as `decode` does; `P` says whether a read could wait.
pub(crate) fn decode_from<R: Read, P: Waits<R>, W: Write>(
    alloc: Global,
    reader: &mut R,
    sheet: Option<&Sheet<'_>>,
    node: Option<u8>,
    writer: &mut W,
) -> Result<(), CmdFault>
    ensures known { Decoded (names_in (option_copied sheet.entry) node)
        (R.remaining reader.old) (R.remaining reader.new)
        (W.contents writer.old) (W.contents writer.new) result }
    ensures any_reader { GaveText (R.remaining reader.old) (R.remaining reader.new) (λ text.
        Decoded (names_in (option_copied sheet.entry) node) (Some text) (Some [])
        (W.contents writer.old) (W.contents writer.new) result) }
{
    let names = Names {
        sheet,
        only: node,
        originals: None,
    };
    let mut lines = LineReader::new();
    decode_all::<R, P, W>(alloc, &mut lines, reader, names, writer)
}

/// Decodes a trace as `candump -L` writes it, line by line and in constant memory. For each frame
/// it writes a line: the number of its line in the trace, the frame and what it says (CiA 301,
/// 7.2), as `1 605#2B171000E8030000 SDO request node 5 download 1017:00 expedited E803`. With a
/// data sheet (CiA 306) the ParameterName of an entry follows; with a node-ID too, only for this
/// node. Event lines, and frames that are passed over, are checked and give no line.
///
/// The writer is flushed before each read, but not while a whole line is held. So a buffered writer
/// passes on the lines of one read together, before the next read.
///
/// * `BadLine`: the first line that is no line of a trace, that has more than 512 bytes, or whose
///   stamp is more than a day past the clock. All lines before it have been written.
/// * `Read`, `NeverEnds`: the reader failed within a line. All lines before it have been written.
/// * `Write`: a part of the text has been written, or all of it if the flush failed.
/// * `Memory`: some of the lines have been written, never all.
pub fn decode<R: Read, W: Write>(
    alloc: Global,
    reader: &mut R,
    sheet: Option<&Sheet<'_>>,
    node: Option<u8>,
    writer: &mut W,
) -> Result<(), CmdFault>
    // All of the trace is good, and the lines of its frames are written.
    ensures ok { OnOk result
        (IfSome (R.remaining reader.old) (λ text. (trace_in text).bad ≡ None)) }
    ensures text { OnOk result (IfSome (R.remaining reader.old) (λ text.
        WritesLines (W.contents writer.old) (W.contents writer.new)
        (trace_lines (names_in (option_copied sheet.entry) node) text))) }

    // There is a bad line, and the lines of the frames before the first one are written.
    ensures bad_line { (number : ℕ) → result ≡ Err (CmdFault.BadLine number) →
        IfSome (R.remaining reader.old) (λ text. (trace_in text).bad ≡ Some number) }
    ensures before { (number : ℕ) → result ≡ Err (CmdFault.BadLine number) →
        IfSome (R.remaining reader.old) (λ text.
        WritesLines (W.contents writer.old) (W.contents writer.new)
        (trace_lines (names_in (option_copied sheet.entry) node) text)) }

    // A part of these lines is written, or all of them.
    ensures write { result ≡ Err CmdFault.Write →
        IfSome (R.remaining reader.old) (λ text.
        WritesFrontOrLines (W.contents writer.old) (W.contents writer.new)
        (trace_lines (names_in (option_copied sheet.entry) node) text)) }
    ensures memory { result ≡ Err CmdFault.Memory →
        IfSome (R.remaining reader.old) (λ text.
        WritesSome (W.contents writer.old) (W.contents writer.new)
        (trace_lines (names_in (option_copied sheet.entry) node) text)) }

    // The reader fails within a line, and the lines of the frames before it are written.
    ensures unread { IfErr result (λ fault. (fault ≡ CmdFault.Read) ⊎ (fault ≡ CmdFault.NeverEnds) →
        FailsWithinLine (R.remaining reader.old) (R.remaining reader.new) (λ taken.
        WritesLines (W.contents writer.old) (W.contents writer.new)
        (lines_of (names_in (option_copied sheet.entry) node) taken))) }

    // For any reader: it gave a text, and all this holds of that text.
    ensures any_reader { GaveText (R.remaining reader.old) (R.remaining reader.new) (λ text.
        Decoded (names_in (option_copied sheet.entry) node) (Some text) (Some [])
        (W.contents writer.old) (W.contents writer.new) result) }
{
    decode_from::<R, AnyRead, W>(alloc, reader, sheet, node, writer)
}
