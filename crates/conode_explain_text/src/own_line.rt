//! A line of its own, between those of frames.

ghost use Rattle.std.specs.Prelude.{◌≡◌, ◌++◌, ◌∷◌, [], OnOk};
ghost use Rattle.conode_explain_text.specs.Lines.{
  said,
  after_blanks,
  own_front,
  own_parts,
  line_text,
};

use crate::line::{add_interface, add_said};
use crate::so_far::Times;
use crate::stamps::{StampForm, add_stamp};
use std::alloc::AllocError;

#[tactic(auto, unfolding(crate::specs::Lines::own_front))]
fn write_line(
    line: &mut Vec<u8>,
    text: &mut String,
    form: StampForm,
    times: Times,
    shows: bool,
    name: &[u8],
    words: &[u8],
) -> Result<(), AllocError>
    ensures { OnOk result (line.new.items
        ≡ own_front form times shows name.now ++ after_blanks (said words.now) ++ 10 ∷ []) }
{
    line.clear();
    attempt!(add_stamp(line, text, form, times));
    attempt!(add_interface(line, text, shows, name));
    attempt!(add_said(line, words));
    line.extend_from_slice(b"\n")
}

/// Sets `line` to a line of its own with these words, as `    12.345678  node 5  SDO upload ..`:
/// the stamp of a frame, its interface, where it `shows`, the words, and a line feed. `text` is
/// scratch space. On an `Err` memory ran out, and the line is incomplete.
#[tactic(auto, using(crate::proofs::LineLemmas::own_written))]
pub fn set_own_line(
    line: &mut Vec<u8>,
    text: &mut String,
    form: StampForm,
    times: Times,
    shows: bool,
    name: &[u8],
    words: &[u8],
) -> Result<(), AllocError>
    ensures { OnOk result
        (line.new.items ≡ line_text (own_parts form times shows name.now words.now)) }
{
    write_line(line, text, form, times, shows, name, words)
}
