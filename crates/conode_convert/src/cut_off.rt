//! Whether the last line of a recording may be cut off.

ghost use Rattle.std.specs.Prelude.{◌≡◌};
ghost use Rattle.conode_record.specs.Lines.{line_in};
ghost use Rattle.conode_convert.specs.CutOff.{has_room, may_be_cut};

use crate::bad_lines::name_bad_line;
use conode_logs::Form;
use conode_record::{Content, RecordLine};
use std::io::Write;

/// What is said of a last line that may be.
const CUT_OFF: &str = "no line feed ends it, so its frame may be cut off";

fn has_room(content: &Content<'_>) -> bool
    ensures { result ≡ has_room content.now }
{
    match content {
        Content::Data(bytes) => bytes.len() < 8,
        Content::Remote(_) => false,
        Content::Fd(_, bytes) => bytes.bytes().len() < 64,
    }
}

// Whether more bytes may have come after those of the frame of a line that no line feed ends, in
// the form of `candump -L`.
fn may_be_cut(line: &[u8]) -> bool
    ensures { result ≡ may_be_cut (line_in line.now) }
{
    match RecordLine::read(line) {
        Ok(RecordLine::Frame(frame)) => frame.direction.is_none() && has_room(&frame.content),
        Ok(RecordLine::Skipped) => false,
        Err(_) => false,
    }
}

/// Says so, if the last line of a log, which no line feed ends, may be cut off within the data of its
/// frame. A log of another form than `candump -L` has their number.
pub fn name_cut<E: Write>(form: Form, number: u64, line: &[u8], err: &mut E) {
    if let Form::Candump = form {
        if may_be_cut(line) {
            name_bad_line(number, CUT_OFF, err);
        }
    }
}
