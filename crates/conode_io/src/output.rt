//! What goes to a writer: lines as they are made, and the rest at the end of a command.

ghost use Rattle.std.specs.Prelude.{◌≡◌, ◌≢◌, ◌⊎◌, IfOk, IfErr, OnOk, Ok, Err};
ghost use Rattle.std.specs.Io.KnownBytes.{Appends, Keeps};
ghost use Rattle.conode_io.specs.Endings.{stopped_line};
ghost use Rattle.conode_io.specs.Messages.{message_line};
ghost use Rattle.conode_io.specs.Written.{AppendsFront};

use crate::ending::Ending;
use crate::fault::CmdFault;
use crate::flushing::flush;
use crate::message::Message;
use std::io;
use std::io::Write;

/// Writes all the bytes. `Write` if the writer fails: it has then taken only some of them, from the
/// first on. A write that a signal interrupts is tried again.
pub fn hand_over<W: Write>(bytes: &[u8], writer: &mut W) -> Result<(), CmdFault>
    ensures ok { OnOk result (Appends (W.contents writer.old) (W.contents writer.new) bytes.now) }
    ensures fault { IfErr result (λ fault. fault ≡ CmdFault.Write) }
    ensures front { IfErr result (λ _.
        AppendsFront (W.contents writer.old) (W.contents writer.new) bytes.now) }
{
    let mut rest = bytes;
    let mut tries = u64::MAX;
    while !rest.is_empty() && tries > 0 {
        tries -= 1;
        match writer.write(rest) {
            Ok(0) => return Err(CmdFault::Write),
            Ok(count) => rest = &rest[count..],
            Err(error) => {
                if error.kind() != io::ErrorKind::Interrupted {
                    return Err(CmdFault::Write);
                }
            }
        }
    }
    if rest.is_empty() {
        Ok(())
    } else {
        Err(CmdFault::Write)
    }
}

/// Flushes the writer at the end of a command, and returns its outcome. A fault of the command
/// stays; `Write` if there was none and the flush fails.
pub fn flushed<W: Write, T: Drop>(
    writer: &mut W,
    outcome: Result<T, CmdFault>,
) -> Result<T, CmdFault>
    ensures ok { IfOk result (λ value. outcome ≡ Ok value) }
    // A fault that the command had already stays.
    ensures kept { IfErr outcome (λ fault. result ≡ Err fault) }
    ensures err { IfErr result (λ fault. (outcome ≡ Err fault) ⊎ (fault ≡ CmdFault.Write)) }
    ensures text { Keeps (W.contents writer.old) (W.contents writer.new) }
{
    match flush(writer) {
        Ok(_) => outcome,
        Err(fault) => outcome.and(Err(fault)),
    }
}

/// Writes the line of a message at once.
pub fn say<W: Write>(message: Message<'_>, writer: &mut W) -> io::Result<()>
    ensures { OnOk result
        (Appends (W.contents writer.old) (W.contents writer.new) (message_line message.entry)) }
{
    match message {
        Message::Stopped(fault) => {
            let text = fault.text();
            let text = text.as_str();
            writeln!(writer, "stopped: {text}")?;
        }
        Message::Fault(fault) => {
            let text = fault.text();
            let text = text.as_str();
            writeln!(writer, "{text}")?;
        }
        Message::BuildFault(fault) => {
            let text = fault.text();
            let text = text.as_str();
            writeln!(writer, "{text}")?;
        }
        Message::CannotRead(name) => writeln!(writer, "cannot read {name}")?,
    }
    writer.flush()
}

/// Says why a command stopped early: on `out`, or for `Write` on `err`.
pub fn stopped<O: Write, E: Write>(fault: CmdFault, out: &mut O, err: &mut E) -> Ending
    ensures fault { (result ≡ Ending.Said fault) ⊎ (result ≡ Ending.Unsaid fault) }
    ensures on_out { fault ≢ CmdFault.Write → result ≡ Ending.Said fault →
        Appends (O.contents out.old) (O.contents out.new) (stopped_line fault) }
    ensures on_err { fault ≡ CmdFault.Write → result ≡ Ending.Said fault →
        Appends (E.contents err.old) (E.contents err.new) (stopped_line fault) }
    ensures unwritable { fault ≡ CmdFault.Write → Keeps (O.contents out.old) (O.contents out.new) }
    ensures err_kept { fault ≢ CmdFault.Write → Keeps (E.contents err.old) (E.contents err.new) }
{
    let message = Message::Stopped(fault);
    // If even this can't be written, only the status shows it.
    let said = if fault == CmdFault::Write {
        say(message, err)
    } else {
        say(message, out)
    };
    match said {
        Ok(()) => Ending::Said(fault),
        Err(_) => Ending::Unsaid(fault),
    }
}
