//! Values of an OCTET_STRING with blanks between its bytes (CiA 306, object description).

ghost use Rattle.std.specs.Prelude.{◌≡◌, ◌<◌, length, IfOk, IfSome, IfNone, option_map};
ghost use Rattle.co_sheet_text.specs.Text.{is_empty};
ghost use Rattle.co_sheet_adapt.specs.Values.{is_spaced, pairs_without_blanks};

use co_sheet::is_pairs;
use co_sheet_changes::without_blanks;
use co_text::{is_blank, pair_at};
use std::alloc::{AllocError, Global};

// what follows a blank or a pair of digits at the front
fn past_part(text: &[u8]) -> Option<&[u8]>
    ensures some { IfSome result (λ rest. is_spaced text.now ≡ is_spaced rest.now) }
    ensures none { IfNone result (is_spaced text.now ≡ is_empty text.now) }
    ensures shorter { IfSome result (λ rest. length rest.now < length text.now) }
{
    match text {
        [first, rest @ ..] if is_blank(*first) => Some(rest),
        _ => {
            match pair_at(text) {
                Some((_, rest)) => Some(rest),
                None => None,
            }
        }
    }
}

// whether a text is pairs of digits, and blanks between whole pairs
fn is_spaced(text: &[u8]) -> bool
    ensures { result ≡ is_spaced text.now }
{
    let mut rest = text;
    while let Some(next) = past_part(rest) {
        rest = next;
    }
    rest.is_empty()
}

/// The pairs of hexadecimal digits that a text is without the blanks between them, where it has
/// some.
pub(crate) fn pairs_without_blanks(
    alloc: Global,
    value: &[u8],
) -> Result<Option<Vec<u8>>, AllocError>
    ensures { IfOk result
        (λ made. option_map (λ v. v.items) made ≡ pairs_without_blanks value.now) }
{
    if is_pairs(value) {
        return Ok(None);
    }
    if is_spaced(value) {
        Ok(Some(attempt!(without_blanks(alloc, value))))
    } else {
        Ok(None)
    }
}
