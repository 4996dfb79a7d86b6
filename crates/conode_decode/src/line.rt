//! The line of a frame.

ghost use Rattle.std.specs.Prelude.{◌≡◌, OnOk, string_bytes};
ghost use Rattle.co_sheet_changes.specs.Names.{names_view};
ghost use Rattle.conode_decode.specs.Texts.{decoded_line};

use crate::node_services::push_text;
use crate::numbers::push_words;
use co_frame::Frame;
use co_sheet_changes::Names;
use co_text::push_decimal;
use conode_trace::push_frame;
use std::alloc::AllocError;

/// Sets the text to the line of a frame: the number of its line in the trace, the frame, what it
/// says with the names of entries, and a line feed, as
/// `1 605#2B171000E8030000 SDO request node 5 download 1017:00 expedited E803`. `Err`: out of
/// memory; the text then has a part of the line.
#[tactic(auto, unfolding(crate::specs::Texts::decoded_line))]
pub fn set_decoded_line(
    text: &mut String,
    names: Names<'_, '_>,
    number: usize,
    frame: &Frame,
) -> Result<(), AllocError>
    ensures { OnOk result
        (string_bytes text.new ≡ decoded_line (names_view names.entry) number frame.now) }
{
    text.clear();
    attempt!(push_decimal(text, number as u64));
    attempt!(push_words(text, " "));
    attempt!(push_frame(text, frame));
    attempt!(push_words(text, " "));
    attempt!(push_text(text, names, frame));
    push_words(text, "\n")
}
