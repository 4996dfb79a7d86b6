//! The lines of a text.

ghost use Rattle.std.specs.Prelude.{◌≡◌, ◌<◌, ◌∷◌, [], length, IfSome, IfNone};
ghost use Rattle.std.specs.Str.Lines.{lines, strip_carriage_return};

use crate::cut::split_at_first;

const LINE_FEED: u8 = b'\n';

/// The first line of the text, without its end, and what is after it; `None` where there is no
/// line. A line feed ends a line, with one carriage return before it; the last line may lack its
/// line feed, and then keeps a carriage return.
pub fn split_line(text: &[u8]) -> Option<(&[u8], &[u8])>
    ensures none { IfNone result (lines text.now ≡ []) }
    ensures lines { IfSome result (λ parts. lines text.now ≡ parts.0.now ∷ lines parts.1.now) }
    ensures shorter { IfSome result (λ parts. length parts.1.now < length text.now) }
{
    if text.is_empty() {
        return None;
    }
    match split_at_first(text, LINE_FEED) {
        Some((line, rest)) => Some((without_return(line), rest)),
        None => Some((text, &[])),
    }
}

// one carriage return before a line feed belongs to the line's end
fn without_return(line: &[u8]) -> &[u8]
    ensures { result.now ≡ strip_carriage_return line.now }
{
    match line {
        [front @ .., b'\r'] => front,
        _ => line,
    }
}
