//! The line of a frame.

ghost use Rattle.std.specs.Prelude.{◌≡◌, ◌++◌, [], ◌∷◌, OnOk, string_bytes};
ghost use Rattle.std.specs.List.{flat_map};
ghost use Rattle.std.specs.Option.{option_copied};
ghost use Rattle.conode_record.specs.Grammar.{IsIdentifier};
ghost use Rattle.conode_explain_text.specs.Lines.{
  stamp,
  gap,
  identifier,
  content,
  said,
  part_text,
  after_blanks,
  interface_parts,
  notes,
  odd_words,
  front_text,
  line_parts,
  line_text,
};
ghost use Rattle.conode_explain_text.specs.SoFar.{shows_interface, times_at};

use crate::columns::{push_content, push_id, push_name};
use crate::pieces::{eight_piece, frame_piece};
use crate::said::add_shown;
use crate::so_far::{Seen, Times};
use crate::stamps::{StampForm, add_gap, add_stamp};
use conode_record::{Content, Identifier, Record};
use std::alloc::AllocError;

fn add_times(
    line: &mut Vec<u8>,
    text: &mut String,
    form: StampForm,
    times: Times,
) -> Result<(), AllocError>
    ensures { OnOk result (line.new.items
        ≡ line.old.items ++ part_text (stamp form times) ++ after_blanks (gap times)) }
{
    attempt!(add_stamp(line, text, form, times));
    add_gap(line, text, times)
}

/// Appends two blanks and an interface to a line, where it shows; `text` is scratch space.
pub(crate) fn add_interface(
    line: &mut Vec<u8>,
    text: &mut String,
    shows: bool,
    name: &[u8],
) -> Result<(), AllocError>
    ensures { OnOk result (line.new.items
        ≡ line.old.items ++ flat_map after_blanks (interface_parts shows name.now)) }
{
    if !shows {
        return Ok(());
    }
    text.clear();
    attempt!(text.push_str("  "));
    attempt!(push_name(text, name));
    line.extend_from_slice(text.as_bytes())
}

// makes the text the identifier and the content of a frame, each after two blanks
fn set_frame(text: &mut String, id: Identifier, has: &Content<'_>) -> Result<(), AllocError>
    requires { IsIdentifier id }
    ensures { OnOk result (string_bytes text.new
        ≡ after_blanks (identifier id) ++ after_blanks (content has.now)) }
{
    text.clear();
    attempt!(text.push_str("  "));
    attempt!(push_id(text, id));
    attempt!(text.push_str("  "));
    push_content(text, has)
}

fn add_frame(
    line: &mut Vec<u8>,
    text: &mut String,
    id: Identifier,
    has: &Content<'_>,
) -> Result<(), AllocError>
    requires { IsIdentifier id }
    ensures { OnOk result (line.new.items ≡ line.old.items
        ++ after_blanks (identifier id) ++ after_blanks (content has.now)) }
{
    // those of most frames
    if let Identifier::Base(id) = id {
        if let Content::Data(bytes) = has {
            let bytes = bytes.to_list();
            if bytes.len() == 8 {
                return line.extend_from_slice(eight_piece(id, bytes.as_slice()).as_slice());
            }
            return line.extend_from_slice(frame_piece(id, bytes.as_slice()).as_slice());
        }
    }
    attempt!(set_frame(text, id, has));
    line.extend_from_slice(text.as_bytes())
}

pub(crate) fn add_said(line: &mut Vec<u8>, words: &[u8]) -> Result<(), AllocError>
    ensures { OnOk result (line.new.items ≡ line.old.items ++ after_blanks (said words.now)) }
{
    attempt!(line.extend_from_slice(b"  "));
    add_shown(line, words)
}

// an hour in microseconds
const AN_HOUR: u64 = 3_600_000_000;

/// What is odd about a stamp: it is earlier than that of the frame before, or more than an hour
/// later. `None` for every other one.
#[tactic(auto, unfolding(crate::specs::Lines::odd_words))]
pub fn odd_words(times: Times) -> Option<&'static str>
    ensures { option_copied result ≡ odd_words times }
{
    if times.now < times.before {
        return Some("the stamp steps back");
    }
    if times.now - times.before > AN_HOUR {
        return Some("the stamp is more than an hour ahead");
    }
    None
}

// what comes after what the frame says
fn add_end(line: &mut Vec<u8>, times: Times) -> Result<(), AllocError>
    ensures { OnOk result
        (line.new.items ≡ line.old.items ++ flat_map after_blanks (notes times) ++ 10 ∷ []) }
{
    if let Some(words) = odd_words(times) {
        attempt!(line.extend_from_slice(b"  note: "));
        attempt!(line.extend_from_slice(words.as_bytes()));
    }
    line.extend_from_slice(b"\n")
}

// what comes before what the frame says
#[tactic(auto, unfolding(crate::specs::Lines::front_text))]
fn add_front(
    line: &mut Vec<u8>,
    text: &mut String,
    form: StampForm,
    times: Times,
    shows: bool,
    frame: &Record<'_>,
) -> Result<(), AllocError>
    requires { IsIdentifier frame.now.id }
    ensures { OnOk result
        (line.new.items ≡ line.old.items ++ front_text form times shows frame.now) }
{
    attempt!(add_times(line, text, form, times));
    attempt!(add_interface(line, text, shows, frame.interface.bytes()));
    add_frame(line, text, frame.id, &frame.content)
}

// the line of a frame in the order in which it is written
fn write_line(
    line: &mut Vec<u8>,
    text: &mut String,
    form: StampForm,
    seen: &Seen,
    frame: &Record<'_>,
    words: &[u8],
) -> Result<(), AllocError>
    requires { IsIdentifier frame.now.id }
    ensures { OnOk result (line.new.items
        ≡ front_text form (times_at seen.now frame.now.micros)
        (shows_interface seen.now frame.now.interface) frame.now ++ after_blanks (said words.now)
        ++ flat_map after_blanks (notes (times_at seen.now frame.now.micros)) ++ 10 ∷ []) }
{
    let times = seen.times(frame.micros);
    let shows = seen.shows_interface(frame.interface.bytes());
    line.clear();
    attempt!(add_front(line, text, form, times, shows, frame));
    attempt!(add_said(line, words));
    add_end(line, times)
}

/// Sets `line` to the line of a frame that says these words; `seen` is what the recording showed
/// before it. The line has its stamp, the time since the frame before it, its interface where there
/// are several, its identifier, its length and data, the words, a note where its stamp is odd, and a
/// line feed, as `    12.345678  +0.000412  185  [4] E8 03 10 27              TPDO1 node 5`.
/// `text` is scratch space. On an `Err` memory ran out, and the line is incomplete.
pub fn set_line(
    line: &mut Vec<u8>,
    text: &mut String,
    form: StampForm,
    seen: &Seen,
    frame: &Record<'_>,
    words: &[u8],
) -> Result<(), AllocError>
    requires { IsIdentifier frame.now.id }
    ensures { OnOk result
        (line.new.items ≡ line_text (line_parts form seen.now frame.now words.now)) }
{
    write_line(line, text, form, seen, frame, words)
}
