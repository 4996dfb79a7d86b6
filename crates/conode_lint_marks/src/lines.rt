//! The lines of a text.

ghost use Rattle.std.specs.Prelude.{◌≡◌, ◌<◌, ◌≤◌, length, map};
ghost use Rattle.conode_lint_marks.specs.Lines.{
  first_bytes,
  is_within_character,
  line_at,
  place_of_cut,
  whole_line,
};

// a byte of a character in UTF-8 after its first
fn is_within_character(byte: u8) -> bool
    ensures { result ≡ is_within_character byte }
{
    128 <= byte && byte < 192
}

// where a line of more than 512 bytes is cut: not within a character, which has at most four bytes
fn place_of_cut(line: &[u8]) -> usize
    requires { 512 < length line.now }
    ensures place { result ≡ place_of_cut line.now }
    ensures within { result ≤ 512 }
{
    if !is_within_character(line[512]) {
        512
    } else if !is_within_character(line[511]) {
        511
    } else if !is_within_character(line[510]) {
        510
    } else {
        509
    }
}

// at most the first 512 bytes of a line, and no part of a character
fn first_bytes(line: &[u8]) -> &[u8]
    ensures { result.now ≡ first_bytes line.now }
{
    if line.len() <= 512 {
        return line;
    }
    let (first, _) = line.split_at(place_of_cut(line));
    first
}

/// A line by its number, from 1; empty if there is no such line.
#[tactic(auto, unfolding(crate::specs::Lines::whole_line))]
pub(crate) fn whole_line<'a>(lines: &[&'a [u8]], number: usize) -> &'a [u8]
    ensures { result.now ≡ whole_line (map (λ line. line.now) lines.now) number }
{
    if number == 0 || number > lines.len() {
        return &[];
    }
    lines[number - 1]
}

/// A line by its number, from 1, at most its first 512 bytes, cut before a character of UTF-8 that
/// goes past them; empty if there is no such line.
#[tactic(auto, unfolding(crate::specs::Lines::line_at))]
pub fn line_at<'a>(lines: &[&'a [u8]], number: usize) -> &'a [u8]
    ensures { result.now ≡ line_at (map (λ line. line.now) lines.now) number }
{
    first_bytes(whole_line(lines, number))
}
