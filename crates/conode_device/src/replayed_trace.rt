//! Replaying a trace: a device takes its inputs, and what it sends is printed.

ghost use Rattle.std.specs.Prelude.{
  ◌≡◌,
  ◌⊎◌,
  ℕ,
  Bool,
  true,
  false,
  [],
  ◌∷◌,
  OnOk,
  IfOk,
  IfErr,
  IfSome,
  Err,
  Some,
  None,
};
ghost use Rattle.co_stream.specs.Nexts.{new_reader};
ghost use Rattle.co_stream.specs.Readings.{Gave};
ghost use Rattle.conode_trace.specs.Traces.{trace_of};
ghost use Rattle.conode_io.specs.TraceTexts.{trace_in, FailsWithinLine, GaveText};
ghost use Rattle.conode_device.specs.Lines.{boot_line};
ghost use Rattle.conode_device.specs.Runs.{
  AfterAny,
  BreaksOff,
  FailsToWrite,
  HasCounted,
  HasEnded,
  HasRun,
  Replayed,
  WritesWhole,
  WrittenAfter,
};

use crate::lines::{print_frames, print_totals};
use crate::replayed_line::replay_line;
use crate::totals::Totals;
use co_frame::Outbox;
use co_node::Node;
use co_stream::LineReader;
use conode_io::{AnyRead, CmdFault, Waits, let_out, line_fault};
use conode_trace::{BadLine, TraceProgress};
use std::alloc::Global;
use std::io::{Read, Write};

// prints the boot-up, at clock 0
fn print_boot<W: Write>(node: &Node, sent: &mut Outbox, writer: &mut W) -> Result<(), CmdFault>
    ensures { WrittenAfter node.now (W.contents writer.old) (W.contents writer.new)
        (λ k before. boot_line k ∷ []) result }
{
    node.boot(sent);
    print_frames(0, sent.as_slice(), writer)
}

// replays the boot-up and all inputs, with a new line reader
fn replay_lines<R: Read, P: Waits<R>, W: Write>(
    text: &mut String,
    node: &mut Node,
    sent: &mut Outbox,
    lines: &mut LineReader,
    reader: &mut R,
    writer: &mut W,
) -> Result<Totals, CmdFault>
    requires { lines.old ≡ new_reader }
    ensures gave { (ended : Bool) × Gave false ended
        (R.remaining reader.old) (R.remaining reader.new) (λ had has.
        Replayed (λ k before.
        HasCounted k before (W.contents writer.old) (W.contents writer.new) node.new)
        node.old node.new had has
        (W.contents writer.old) (W.contents writer.new) result) }
    ensures read { result ≡ Err CmdFault.Read → lines.new.failed ≡ true }
    ensures never_ends { result ≡ Err CmdFault.NeverEnds → lines.new.asks ≡ 0 }
{
    print_boot(node, sent, writer)?;
    let mut totals = Totals::new();
    let mut progress = TraceProgress::new();
    // the label names the loop's invariant
    'trace: loop {
        let_out::<R, P, W>(lines, reader, writer)?;
        match lines.next(reader) {
            Ok(Some(line)) => match progress.read(line) {
                Ok(timed) => {
                    let printed = replay_line(text, node, &timed, sent, writer)?;
                    totals.count(&timed, printed);
                }
                Err(BadLine(number)) => return Err(CmdFault::BadLine(number)),
            },
            Ok(None) => return Ok(totals),
            Err(fault) => return Err(line_fault(fault, &progress)),
        }
    }
}

// replays the boot-up and all inputs, and prints the totals
fn replay_whole<R: Read, P: Waits<R>, W: Write>(
    alloc: Global,
    node: &mut Node,
    reader: &mut R,
    writer: &mut W,
) -> Result<Totals, CmdFault>
    ensures { (ended : Bool) × Gave false ended
        (R.remaining reader.old) (R.remaining reader.new) (λ had has.
        Replayed (λ k before.
        HasEnded k before (W.contents writer.old) (W.contents writer.new) node.new)
        node.old node.new had has
        (W.contents writer.old) (W.contents writer.new) result) }
{
    let mut text = String::new(alloc);
    let mut sent = Outbox::new();
    let mut lines = LineReader::new();
    let totals = replay_lines::<R, P, W>(&mut text, node, &mut sent, &mut lines, reader, writer)?;
    print_totals(&mut text, totals, writer)?;
    Ok(totals)
}

/// Replays a trace as `replay` does; `P` says whether a read could wait.
pub(crate) fn replay_from<R: Read, P: Waits<R>, W: Write>(
    alloc: Global,
    node: &mut Node,
    reader: &mut R,
    writer: &mut W,
) -> Result<Totals, CmdFault>
    ensures known { Replayed (λ k before.
        HasEnded k before (W.contents writer.old) (W.contents writer.new) node.new)
        node.old node.new (R.remaining reader.old) (R.remaining reader.new)
        (W.contents writer.old) (W.contents writer.new) result }
    ensures any_reader { GaveText (R.remaining reader.old) (R.remaining reader.new) (λ text.
        Replayed (λ k before.
        HasEnded k before (W.contents writer.old) (W.contents writer.new) node.new)
        node.old node.new (Some text) (Some [])
        (W.contents writer.old) (W.contents writer.new) result) }
{
    replay_whole::<R, P, W>(alloc, node, reader, writer)
}

/// Replays a trace as `candump -L` writes it against a device, line by line and in constant memory.
/// What the device sends is printed as such a trace. First comes its boot-up, at clock 0 (CiA 301,
/// 7.2.8.3.3). Each input is a tick of 1 ms, a data frame or an event line; the frames that the
/// device sends at it have the clock of that input. A refused event is printed before its frames,
/// as `; line 7 refused 06090030`, with the number of its line and the abort code. The totals come
/// last, as `; in 1, out 3, ticks 1000`. Frames that are passed over move the clock.
///
/// The writer is flushed before each read, but not while a whole line is held. So the result of a
/// line has gone out before the next line is waited for.
///
/// * `BadLine`: the first line that is no line of a trace, that has more than 512 bytes, or whose
///   stamp is more than a day past the clock.
/// * `Read`, `NeverEnds`: the reader failed within a line.
/// * `Write`, `Memory`: a printed line couldn't be written, or made. The device has taken the input
///   of that line. The printed lines before it have been written, and at most a part of it, after
///   `Memory` nothing of it.
///
/// After `BadLine`, `Read` and `NeverEnds` the device has taken all inputs of the lines before, and
/// all their lines have been written, but not the totals.
pub fn replay<R: Read, W: Write>(
    alloc: Global,
    node: &mut Node,
    reader: &mut R,
    writer: &mut W,
) -> Result<Totals, CmdFault>
    // All of the trace is good: the device has taken its inputs, and their lines are written, last
    // the totals.
    ensures good { OnOk result
        (IfSome (R.remaining reader.old) (λ text. (trace_in text).bad ≡ None)) }
    ensures ended { IfOk result (λ totals. IfSome (R.remaining reader.old) (λ text.
        AfterAny node.old (λ k before. HasEnded k before
        (W.contents writer.old) (W.contents writer.new) node.new totals (trace_in text).inputs))) }

    // There is a bad line: the device has taken the inputs before the first one, and their lines
    // are written.
    ensures bad_line { (number : ℕ) → result ≡ Err (CmdFault.BadLine number) →
        IfSome (R.remaining reader.old) (λ text. (trace_in text).bad ≡ Some number) }
    ensures until_bad { (number : ℕ) → result ≡ Err (CmdFault.BadLine number) →
        IfSome (R.remaining reader.old) (λ text. AfterAny node.old (λ k before. HasRun k before
        (W.contents writer.old) (W.contents writer.new) node.new (trace_in text).inputs)) }

    // The reader fails within a line; the device has taken the inputs before it, and their lines
    // are written.
    ensures unread { IfErr result (λ fault. (fault ≡ CmdFault.Read) ⊎ (fault ≡ CmdFault.NeverEnds) →
        FailsWithinLine (R.remaining reader.old) (R.remaining reader.new) (λ taken.
        AfterAny node.old (λ k before. HasRun k before
        (W.contents writer.old) (W.contents writer.new) node.new (trace_of taken).inputs))) }

    // A line can't be written, or made: the device has taken the input whose line it is, and those
    // before it.
    ensures write { result ≡ Err CmdFault.Write → IfSome (R.remaining reader.old) (λ text.
        AfterAny node.old (λ k before. FailsToWrite k before
        (W.contents writer.old) (W.contents writer.new) node.new (trace_in text).inputs)) }
    ensures memory { result ≡ Err CmdFault.Memory → IfSome (R.remaining reader.old) (λ text.
        AfterAny node.old (λ k before. BreaksOff k before node.new
        (WritesWhole (W.contents writer.old) (W.contents writer.new)) (trace_in text).inputs)) }

    // For any reader: it gave a text, and all this holds of that text.
    ensures any_reader { GaveText (R.remaining reader.old) (R.remaining reader.new) (λ text.
        Replayed (λ k before.
        HasEnded k before (W.contents writer.old) (W.contents writer.new) node.new)
        node.old node.new (Some text) (Some [])
        (W.contents writer.old) (W.contents writer.new) result) }
{
    replay_from::<R, AnyRead, W>(alloc, node, reader, writer)
}
