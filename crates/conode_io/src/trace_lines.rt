//! Between two lines of a trace.

ghost use Rattle.std.specs.Prelude.{◌≡◌, ◌+◌, ◌<◌, ◌^◌, ◌&&◌, not, false, IfOk, IfErr};
ghost use Rattle.std.specs.Io.KnownBytes.{Keeps};
ghost use Rattle.co_stream.specs.Lines.{has_line_feed};
ghost use Rattle.conode_io.specs.LetOuts.{is_done};
ghost use Rattle.conode_io.specs.TraceTexts.{NamesLongLine};

use crate::read_waits::Waits;
use crate::{CmdFault, Flushed, flush};
use co_stream::{LineFault, LineReader};
use conode_trace::{BadLine, TraceProgress};
use std::io::Write;

/// The fault of a command whose line reader fails: `Read`, `NeverEnds`, or `BadLine` if the next
/// line has more than 512 bytes.
pub fn line_fault(fault: LineFault, progress: &TraceProgress) -> CmdFault
    requires { progress.now.number + 1 < 2 ^ 64 }
    ensures read { fault ≡ LineFault.Read → result ≡ CmdFault.Read }
    ensures never_ends { fault ≡ LineFault.NeverEnds → result ≡ CmdFault.NeverEnds }
    ensures too_long { fault ≡ LineFault.TooLong → NamesLongLine progress.now result }
    ensures only_read { result ≡ CmdFault.Read → fault ≡ LineFault.Read }
    ensures only_never_ends { result ≡ CmdFault.NeverEnds → fault ≡ LineFault.NeverEnds }
{
    match fault {
        LineFault::Read => CmdFault::Read,
        LineFault::NeverEnds => CmdFault::NeverEnds,
        LineFault::TooLong => {
            let BadLine(number) = progress.too_long();
            CmdFault::BadLine(number)
        }
    }
}

/// Whether what was written had to be flushed before the next line.
#[derive(Clone, Copy)]
pub enum LetOut {
    /// The next line can be read without a wait.
    NotNeeded,
    /// The writer was flushed.
    Done(Flushed),
}

/// Flushes the writer if the next line may have to be waited for: the line reader holds no whole
/// line, and a read could wait. So it flushes before such a read, not before each. `Write` if the
/// flush fails.
pub fn let_out<R, P: Waits<R>, W: Write>(
    lines: &LineReader,
    reader: &R,
    writer: &mut W,
) -> Result<LetOut, CmdFault>
    ensures text { Keeps (W.contents writer.old) (W.contents writer.new) }
    ensures done { IfOk result (λ let_out.
        is_done let_out ≡ (not (has_line_feed lines.now.rest) && P.waits reader.now)) }
    ensures untouched { (not (has_line_feed lines.now.rest) && P.waits reader.now) ≡ false →
        writer.new ≡ writer.old }
    ensures err { IfErr result (λ fault. fault ≡ CmdFault.Write) }
{
    if lines.has_line() || !P::could_wait(reader) {
        return Ok(LetOut::NotNeeded);
    }
    Ok(LetOut::Done(flush(writer)?))
}
