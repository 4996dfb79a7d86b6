//! The lines.

ghost use Rattle.std.specs.Prelude.{◌≡◌, ◌++◌, ◌∷◌, [], ◌-ℤ◌, pos, IfOk, OnOk};
ghost use Rattle.std.specs.List.{flat_map};
ghost use Rattle.json.specs.Token.{begin_object, end_object};
ghost use Rattle.conode_record.specs.Grammar.{IsIdentifier};
ghost use Rattle.conode_explain_text.specs.Lines.{gap, line_parts, notes, said, stamp};
ghost use Rattle.conode_explain_text.specs.SoFar.{times_at};
ghost use Rattle.conode_explain_forms.specs.JsonLines.{
  front_tokens,
  json_line,
  kind_members,
  of_several,
  part_tokens,
  stamp_member,
  stamp_number,
};

use crate::json_content::{put_content, put_id, put_interface};
use crate::kind_name::kind_name;
use conode_explain_filter::Kind;
use conode_explain_text::{Seen, StampForm, Times, odd_words, push_moment};
use conode_json::JsonWriter;
use conode_record::Record;
use std::alloc::{AllocError, Global};

// the microseconds from one stamp to another
fn between(from: u64, to: u64) -> i128
    ensures { result ≡ pos to -ℤ pos from }
{
    i128::from(to) - i128::from(from)
}

// a stamp in microseconds, where it isn't a date
fn stamp_number(form: StampForm, times: Times) -> Option<i128>
    ensures { result ≡ stamp_number form times }
{
    match form {
        StampForm::Relative => Some(between(times.first, times.now)),
        StampForm::Absolute => Some(times.now as i128),
        StampForm::Delta => Some(between(times.before, times.now)),
        StampForm::Date => None,
    }
}

#[tactic(auto, unfolding(crate::specs::JsonLines::stamp_member))]
pub(crate) fn put_stamp(
    alloc: Global,
    writer: &mut JsonWriter,
    text: &mut String,
    form: StampForm,
    times: Times,
) -> Result<(), AllocError>
    ensures { OnOk result (writer.new ≡ writer.old ++ stamp_member form times) }
{
    match stamp_number(form, times) {
        Some(micros) => writer.put_number(alloc, "stamp", micros),
        None => {
            text.clear();
            attempt!(push_moment(text, times.now));
            writer.put_text("stamp", text.as_str())
        }
    }
}

fn put_gap(alloc: Global, writer: &mut JsonWriter, times: Times) -> Result<(), AllocError>
    ensures { OnOk result (writer.new ≡ writer.old ++ part_tokens (gap times)) }
{
    writer.put_number(alloc, "gap", between(times.before, times.now))
}

pub(crate) fn put_said(
    alloc: Global,
    writer: &mut JsonWriter,
    words: &[u8],
) -> Result<(), AllocError>
    ensures { OnOk result (writer.new ≡ writer.old ++ part_tokens (said words.now)) }
{
    writer.put_bytes(alloc, "text", words)
}

#[tactic(auto, unfolding(conode_json::specs::Members::text_member))]
fn put_notes(writer: &mut JsonWriter, times: Times) -> Result<(), AllocError>
    ensures { OnOk result (writer.new ≡ writer.old ++ flat_map part_tokens (notes times)) }
{
    match odd_words(times) {
        Some(words) => writer.put_text("note", words),
        None => Ok(()),
    }
}

#[tactic(auto, unfolding(crate::specs::JsonLines::kind_members))]
pub(crate) fn put_kind(
    alloc: Global,
    writer: &mut JsonWriter,
    kind: Kind,
    node: Option<u8>,
) -> Result<(), AllocError>
    ensures { OnOk result (writer.new ≡ writer.old ++ kind_members kind node) }
{
    attempt!(writer.put_text("kind", kind_name(kind)));
    match node {
        Some(node) => writer.put_number(alloc, "node", i128::from(node)),
        None => Ok(()),
    }
}

// the times of a frame, its interface, its identifier and its data
#[tactic(auto, unfolding(crate::specs::JsonLines::front_tokens))]
fn put_front(
    alloc: Global,
    writer: &mut JsonWriter,
    text: &mut String,
    form: StampForm,
    times: Times,
    frame: &Record<'_>,
) -> Result<(), AllocError>
    requires { IsIdentifier frame.now.id }
    ensures { OnOk result (writer.new ≡ writer.old ++ front_tokens form times frame.now) }
{
    attempt!(put_stamp(alloc, writer, text, form, times));
    attempt!(put_gap(alloc, writer, times));
    attempt!(put_interface(writer, text, frame.interface.bytes()));
    attempt!(put_id(writer, text, frame.id));
    put_content(alloc, writer, text, &frame.content)
}

// the tokens of a frame's line in the order in which they are written
fn put_line(
    alloc: Global,
    writer: &mut JsonWriter,
    text: &mut String,
    form: StampForm,
    seen: &Seen,
    frame: &Record<'_>,
    words: &[u8],
    kind: Kind,
    node: Option<u8>,
) -> Result<(), AllocError>
    requires { IsIdentifier frame.now.id }
    ensures { OnOk result (writer.new ≡ writer.old ++ begin_object ∷ []
        ++ front_tokens form (times_at seen.now frame.now.micros) frame.now
        ++ part_tokens (said words.now)
        ++ flat_map part_tokens (notes (times_at seen.now frame.now.micros))
        ++ kind_members kind node ++ end_object ∷ []) }
{
    let times = seen.times(frame.micros);
    attempt!(writer.begin_object());
    attempt!(put_front(alloc, writer, text, form, times, frame));
    attempt!(put_said(alloc, writer, words));
    attempt!(put_notes(writer, times));
    attempt!(put_kind(alloc, writer, kind, node));
    writer.end_object()
}

/// The line of a frame that says these words, as an object of JSON and a line feed, where `seen` is
/// what the recording showed before it: its stamp and the time since the frame before it in
/// microseconds (a stamp as a date in the form `Date`), its interface, its identifier as it is
/// printed, its length and its data as numbers and as hexadecimal digits, the words, a note where
/// its stamp is odd, its kind and its node, where it is of one. On an `Err` memory ran out.
pub fn json_line(
    alloc: Global,
    form: StampForm,
    seen: &Seen,
    frame: &Record<'_>,
    words: &[u8],
    kind: Kind,
    node: Option<u8>,
) -> Result<Vec<u8>, AllocError>
    requires { IsIdentifier frame.now.id }
    ensures { IfOk result (λ line. line.items
        ≡ json_line kind node (line_parts form (of_several seen.now) frame.now words.now)) }
{
    let mut text = String::new(alloc);
    let mut writer = JsonWriter::new(alloc);
    attempt!(put_line(
        alloc,
        &mut writer,
        &mut text,
        form,
        seen,
        frame,
        words,
        kind,
        node,
    ));
    writer.into_text()
}
