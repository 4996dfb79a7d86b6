//! The words of a line.

ghost use Rattle.std.specs.Prelude.{◌≡◌, ◌≤◌, ◌∷◌, [], length, bytes_eq, false, IfSome, IfNone};
ghost use Rattle.std.specs.List.{prefix_len};
ghost use Rattle.std.specs.Option.{option_map};
ghost use Rattle.conode_record.specs.Words.{is_word_byte, past_gap, word_at, next_is, is_over};

use co_text::is_blank;

/// The first byte of an escape sequence, as of a colour: `ESC [ 31 m`.
const ESCAPE: u8 = 0x1B;

#[inline(always)]
fn is_word_byte(byte: u8) -> bool
    ensures { result ≡ is_word_byte byte }
{
    !(is_blank(byte) || byte == ESCAPE)
}

// the first byte, and what follows
#[inline(always)]
fn first_at(text: &[u8]) -> Option<(u8, &[u8])>
    ensures some { IfSome result (λ found. text.now ≡ found.0 ∷ found.1.now) }
    ensures none { IfNone result (text.now ≡ []) }
{
    match text {
        [byte, rest @ ..] => Some((*byte, rest)),
        [] => None,
    }
}

/// What follows the blanks and the escape sequences at the front.
#[tactic(auto, unfolding(crate::specs::Words::past_gap))]
#[inline(always)]
pub fn past_gap(text: &[u8]) -> &[u8]
    ensures { result.now ≡ past_gap false text.now }
{
    let mut escaped = false;
    let mut rest = text;
    while let Some((byte, after)) = first_at(rest) {
        if escaped {
            escaped = byte != b'm';
        } else if byte == ESCAPE {
            escaped = true;
        } else if !is_blank(byte) {
            return rest;
        }
        rest = after;
    }
    rest
}

// how many bytes of a word are at the front
#[inline(always)]
fn word_len(text: &[u8]) -> usize
    ensures count { result ≡ prefix_len is_word_byte text.now }
    ensures within { result ≤ length text.now }
{
    for (count, byte) in text.iter().enumerate() {
        if !is_word_byte(*byte) {
            return count;
        }
    }
    text.len()
}

/// The first word of a line, and what follows it.
#[tactic(auto, unfolding(crate::specs::Words::word_at))]
#[inline(always)]
pub fn word_at(line: &[u8]) -> Option<(&[u8], &[u8])>
    ensures exact { option_map (λ found. (found.0.now, found.1.now)) result ≡ word_at line.now }
    ensures some { IfSome result (λ found. 1 ≤ length found.0.now) }
{
    let text = past_gap(line);
    let len = word_len(text);
    if len == 0 {
        None
    } else {
        Some((&text[..len], &text[len..]))
    }
}

/// Whether a word is this one.
#[inline(always)]
pub fn is_word(word: &[u8], name: &[u8]) -> bool
    ensures { result ≡ bytes_eq word.now name.now }
{
    word == name
}

/// Whether this word comes first.
pub fn next_is(name: &[u8], text: &[u8]) -> bool
    ensures { result ≡ next_is name.now text.now }
{
    match word_at(text) {
        Some((word, _)) => is_word(word, name),
        None => false,
    }
}

/// Whether no word is left.
#[inline(always)]
pub fn is_over(text: &[u8]) -> bool
    ensures { result ≡ is_over text.now }
{
    word_at(text).is_none()
}
