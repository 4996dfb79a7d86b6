//! The lines that a replay prints.

ghost use Rattle.std.specs.Prelude.{◌≡◌, [], ◌∷◌, ◌++◌, map, OnOk, string_bytes};
ghost use Rattle.conode_trace.specs.Printed.{frame_line};
ghost use Rattle.conode_device.specs.Lines.{refused_line, refused_lines, totals_line};
ghost use Rattle.conode_device.specs.Runs.{WrittenBy};

use crate::totals::Totals;
use co_frame::{AbortCode, Frame};
use co_node::AppAnswer;
use conode_io::{CmdFault, hand_over};
use conode_text::{Value, push_filled};
use conode_trace::frame_line;
use std::alloc::AllocError;
use std::io::Write;

/// Sets the text to the line of a refused event, as `; line 7 refused 06090030`. `Err`: out of
/// memory; the text then has a part of the line.
#[tactic(auto, unfolding(crate::specs::Lines::refused_line, conode_text::specs::Filled::filled))]
fn set_refused_line(text: &mut String, number: usize, code: AbortCode) -> Result<(), AllocError>
    ensures { OnOk result (string_bytes text.new ≡ refused_line number code.0) }
{
    text.clear();
    push_filled(
        text,
        "; line % refused %\n",
        &[Value::Number(number as u64), Value::Long(code.0)],
    )
}

/// Sets the text to the line of the totals, as `; in 1, out 3, ticks 1000`. `Err`: out of memory;
/// the text then has a part of the line.
#[tactic(auto, unfolding(crate::specs::Lines::totals_line))]
fn set_totals_line(text: &mut String, totals: Totals) -> Result<(), AllocError>
    ensures { OnOk result (string_bytes text.new ≡ totals_line totals) }
{
    let handed = totals.handed;
    let printed = totals.printed;
    let ticks = totals.ticks;
    text.clear();
    writeln!(text, "; in {handed}, out {printed}, ticks {ticks}")
}

/// Prints the line of the totals.
pub(crate) fn print_totals<W: Write>(
    text: &mut String,
    totals: Totals,
    writer: &mut W,
) -> Result<(), CmdFault>
    ensures { WrittenBy (W.contents writer.old) (W.contents writer.new)
        (totals_line totals ∷ []) result }
{
    set_totals_line(text, totals)?;
    hand_over(text.as_bytes(), writer)
}

/// Prints frames that are sent at a time in ms. Not inlined, to keep a tick without frames short.
#[inline(never)]
pub(crate) fn print_frames<W: Write>(
    ms: u128,
    frames: &[Frame],
    writer: &mut W,
) -> Result<(), CmdFault>
    ensures { WrittenBy (W.contents writer.old) (W.contents writer.new)
        (map (frame_line ms) frames.now) result }
{
    for frame in frames {
        let line = frame_line(ms, frame);
        hand_over(line.as_slice(), writer)?;
    }
    Ok(())
}

// prints the line of a refused event, if it is refused
#[inline(always)]
fn print_refusal<W: Write>(
    text: &mut String,
    number: usize,
    answer: AppAnswer,
    writer: &mut W,
) -> Result<(), CmdFault>
    ensures { WrittenBy (W.contents writer.old) (W.contents writer.new)
        (refused_lines number answer) result }
{
    match answer {
        AppAnswer::Refused(code) => {
            set_refused_line(text, number, code)?;
            hand_over(text.as_bytes(), writer)
        }
        AppAnswer::None | AppAnswer::Done => Ok(()),
    }
}

/// Prints the result of a line's input, at a time in ms: whether it was refused, and then the
/// frames that are sent.
#[inline(always)]
pub(crate) fn print_input<W: Write>(
    text: &mut String,
    number: usize,
    ms: u128,
    answer: AppAnswer,
    frames: &[Frame],
    writer: &mut W,
) -> Result<(), CmdFault>
    ensures { WrittenBy (W.contents writer.old) (W.contents writer.new)
        (refused_lines number answer ++ map (frame_line ms) frames.now) result }
{
    print_refusal(text, number, answer, writer)?;
    if frames.is_empty() {
        return Ok(());
    }
    print_frames(ms, frames, writer)
}
