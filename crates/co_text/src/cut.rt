//! A text cut at the first byte of a kind.

ghost use Rattle.std.specs.Prelude.{◌≡◌, ◌==◌, ◌≤◌, length, IfSome, is_some};
ghost use Rattle.std.specs.List.{list_any, before_first, after_first, position_or_len};

use memchr::memchr;

// place of the first such byte, or the length of the text
#[inline(always)]
fn place_of(text: &[u8], byte: u8) -> usize
    ensures place { result ≡ position_or_len (λ b. b == byte) text.now }
    ensures bound { result ≤ length text.now }
{
    match memchr(byte, text) {
        Some(place) => place,
        None => text.len(),
    }
}

/// Splits a text at the first occurrence of a byte: what is before and after it; `None` where it
/// doesn't occur.
#[inline(always)]
pub fn split_at_first(text: &[u8], byte: u8) -> Option<(&[u8], &[u8])>
    ensures some { is_some result ≡ list_any (λ b. b == byte) text.now }
    ensures before { IfSome result
        (λ parts. parts.0.now ≡ before_first (λ b. b == byte) text.now) }
    ensures after { IfSome result
        (λ parts. parts.1.now ≡ after_first (λ b. b == byte) text.now) }
{
    let place = place_of(text, byte);
    if place == text.len() {
        return None;
    }
    Some((&text[..place], &text[place + 1..]))
}
