//! The bytes of a data sheet's text.

ghost use Rattle.std.specs.Prelude.{◌≡◌, ◌≤◌, length};
ghost use Rattle.co_sheet_text.specs.Text.{trim_front, trim, same_name, without_mark};

use co_text::is_blank;

fn trim_front(text: &[u8]) -> &[u8]
    ensures { result.now ≡ trim_front text.now }
{
    let mut rest = text;
    while let Some((first, tail)) = rest.split_first() {
        if !is_blank(*first) {
            return rest;
        }
        rest = tail;
    }
    rest
}

/// The text without the blanks at both its ends.
pub fn trim(text: &[u8]) -> &[u8]
    ensures { result.now ≡ trim text.now }
{
    let mut rest = trim_front(text);
    while let Some((last, front)) = rest.split_last() {
        if !is_blank(*last) {
            return rest;
        }
        rest = front;
    }
    rest
}

/// Whether two names are the same, without regard to ASCII case.
pub fn same_name(name: &[u8], other: &[u8]) -> bool
    ensures { result ≡ same_name name.now other.now }
{
    name.eq_ignore_ascii_case(other)
}

/// The text without its byte order mark, if it has one.
pub fn without_mark(text: &[u8]) -> &[u8]
    ensures text { result.now ≡ without_mark text.now }
    ensures bound { length result.now ≤ length text.now }
{
    match text {
        [0xEF, 0xBB, 0xBF, rest @ ..] => rest,
        _ => text,
    }
}
