//! Which bad lines can't have had a frame of the bus that is compared.

ghost use Rattle.std.specs.Prelude.{◌≡◌, ◌≤◌, ◌∷◌, [], length, IfSome, IfNone};
ghost use Rattle.std.specs.List.{prefix_len};
ghost use Rattle.std.specs.Option.{option_copied};
ghost use Rattle.conode_compare.specs.BadLines.{
  begins_comment,
  has_no_frame,
  interface_in,
  is_alone,
  is_direction,
  is_no_sign,
};

use co_text::is_blank;
use conode_record::RecordLine;

// the first byte, and what follows
fn first_at(text: &[u8]) -> Option<(u8, &[u8])>
    ensures some { IfSome result (λ found. text.now ≡ found.0 ∷ found.1.now) }
    ensures none { IfNone result (text.now ≡ []) }
{
    match text {
        [byte, rest @ ..] => Some((*byte, rest)),
        [] => None,
    }
}

// whether a text of this byte and these begins a comment
fn begins_comment(first: u8, rest: &[u8]) -> bool
    ensures { result ≡ begins_comment first rest.now }
{
    match rest {
        [] => first == b';' || first == b'#',
        [second, ..] => {
            first == b';' || first == b'/' && *second == b'/' || first == b'#' && is_blank(*second)
        }
    }
}

/// Whether a line is one of blanks, or a comment, perhaps with blanks before it: with `;`, `//`, or
/// `#` and a blank.
#[tactic(auto, unfolding(crate::specs::BadLines::has_no_frame))]
pub(crate) fn has_no_frame(line: &[u8]) -> bool
    ensures { result ≡ has_no_frame line.now }
{
    let mut rest = line;
    while let Some((byte, after)) = first_at(rest) {
        if !is_blank(byte) {
            return begins_comment(byte, after);
        }
        rest = after;
    }
    true
}

fn is_no_sign(byte: u8) -> bool
    ensures { result ≡ is_no_sign byte }
{
    byte != b'#'
}

// how many bytes are before the first number sign
fn sign_place(line: &[u8]) -> usize
    ensures count { result ≡ prefix_len is_no_sign line.now }
    ensures within { result ≤ length line.now }
{
    for (count, byte) in line.iter().enumerate() {
        if !is_no_sign(*byte) {
            return count;
        }
    }
    line.len()
}

fn is_direction(text: &[u8]) -> bool
    ensures { result ≡ is_direction text.now }
{
    match text {
        [mark] => *mark == b'R' || *mark == b'T',
        _ => false,
    }
}

// whether a text has no blank, but before a direction
#[tactic(auto, unfolding(crate::specs::BadLines::is_alone))]
fn is_alone(text: &[u8]) -> bool
    ensures { result ≡ is_alone text.now }
{
    let mut rest = text;
    while let Some((byte, after)) = first_at(rest) {
        if is_blank(byte) {
            return is_direction(after);
        }
        rest = after;
    }
    true
}

/// The interface of a bad line, where that is a frame's line as `candump -L` writes it up to the
/// number sign, and what follows is of that frame alone.
#[tactic(auto, unfolding(crate::specs::BadLines::interface_in))]
pub(crate) fn interface_in(line: &[u8]) -> Option<&[u8]>
    ensures { option_copied result ≡ interface_in line.now }
{
    let sign = sign_place(line);
    if sign == line.len() || !is_alone(&line[sign + 1..]) {
        return None;
    }
    match RecordLine::read(&line[..sign + 1]) {
        Ok(RecordLine::Frame(frame)) => Some(frame.interface.bytes()),
        _ => None,
    }
}
