//! What is said of a frame of a transfer. Each function appends a text; on an `Err` memory ran out,
//! and a part of it may be there.

ghost use Rattle.std.specs.Prelude.{◌≡◌, ◌++◌, OnOk, string_bytes};
ghost use Rattle.conode_explain_entries.specs.Frames.{
  numbers_text,
  segment_number,
  service_text,
  segment_text,
  of_text,
  remark_words,
  awaited_text,
  remark_text,
  after_text,
};

use crate::part::push_entry;
use co_text::push_decimal;
use co_value::Key;
use conode_explain_transfers::{Side, What};
use conode_text::{Value, push_filled};
use std::alloc::AllocError;

/// The number of a segment of a sub-block, the next one or not; `None` for another frame.
pub fn segment_number(what: What) -> Option<u8>
    ensures { result ≡ segment_number what }
{
    match what {
        What::Segment { number } => Some(number),
        What::OutOfSequence { number, awaited: _ } => Some(number),
        What::LastAgain { number } => Some(number),
        _ => None,
    }
}

#[tactic(auto, unfolding(crate::specs::Frames::service_text))]
fn service_text(side: Side) -> &'static str
    ensures { result.now ≡ service_text side }
{
    match side {
        Side::Client => "SDO request node ",
        Side::Server => "SDO answer node ",
    }
}

// two numbers with words before and between them
#[tactic(auto, unfolding(crate::specs::Frames::numbers_text))]
fn push_numbers(
    text: &mut String,
    front: &str,
    first: u8,
    middle: &str,
    second: u8,
) -> Result<(), AllocError>
    ensures { OnOk result (string_bytes text.new
        ≡ string_bytes text.old ++ numbers_text front.now first middle.now second) }
{
    attempt!(text.push_str(front));
    attempt!(push_decimal(text, first as u64));
    attempt!(text.push_str(middle));
    push_decimal(text, second as u64)
}

/// Appends the text of a segment of a sub-block, whose bytes alone don't show what it is: `SDO
/// request node 5 block segment 3`.
pub fn push_segment(text: &mut String, side: Side, node: u8, number: u8) -> Result<(), AllocError>
    ensures { OnOk result (string_bytes text.new
        ≡ string_bytes text.old ++ segment_text side node number) }
{
    push_numbers(text, service_text(side), node, " block segment ", number)
}

#[tactic(auto, unfolding(crate::specs::Frames::of_text))]
fn push_of(text: &mut String, of: Option<Key>, name: &str) -> Result<(), AllocError>
    ensures { OnOk result (string_bytes text.new ≡ string_bytes text.old ++ of_text of name.now) }
{
    let Some(key) = of else {
        return Ok(());
    };
    attempt!(text.push_str(" of "));
    push_entry(text, key, name)
}

#[tactic(auto, unfolding(crate::specs::Frames::remark_words))]
fn remark_words(what: What) -> &'static str
    ensures { result.now ≡ remark_words what }
{
    match what {
        What::LastAgain { number: _ } | What::Repeated => " (repeated)",
        What::Overtaken => " (overtaken)",
        What::Unexpected => " (unexpected)",
        What::Stray => " (no transfer is open)",
        What::BegunBefore => " (its begin isn't in the recording)",
        _ => "",
    }
}

#[tactic(auto, unfolding(crate::specs::Frames::awaited_text))]
fn push_awaited(text: &mut String, number: u8) -> Result<(), AllocError>
    ensures { OnOk result
        (string_bytes text.new ≡ string_bytes text.old ++ awaited_text number) }
{
    push_filled(text, " (% is awaited)", &[Value::Number(number as u64)])
}

fn push_remark(text: &mut String, what: What) -> Result<(), AllocError>
    ensures { OnOk result (string_bytes text.new ≡ string_bytes text.old ++ remark_text what) }
{
    match what {
        What::OutOfSequence { number: _, awaited } => push_awaited(text, awaited),
        _ => text.push_str(remark_words(what)),
    }
}

/// Appends what follows the text of a frame: its entry, if the frame has no key of its own, as ` of
/// 2100:00 "Firmware"`, and in brackets what is odd about it, as ` (repeated)`. `name` is the name
/// of the entry; it may be empty.
#[tactic(auto, unfolding(crate::specs::Frames::after_text))]
pub fn push_after(
    text: &mut String,
    what: What,
    of: Option<Key>,
    name: &str,
) -> Result<(), AllocError>
    ensures { OnOk result (string_bytes text.new
        ≡ string_bytes text.old ++ after_text what of name.now) }
{
    attempt!(push_of(text, of, name));
    push_remark(text, what)
}
