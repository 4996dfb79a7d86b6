//! The line of an SDO transfer that ended, as an object of JSON.

ghost use Rattle.std.specs.Prelude.{◌≡◌, ◌++◌, ◌∷◌, [], true, IfOk, OnOk, Some};
ghost use Rattle.json.specs.Token.{begin_object, end_object};
ghost use Rattle.conode_explain_entries.specs.Ends.{direction_text, side_text};
ghost use Rattle.conode_explain_text.specs.Lines.{interface, own_parts, said, stamp};
ghost use Rattle.conode_explain_forms.specs.EndLines.{
  abort_members,
  end_json_line,
  protocol_members,
  result_members,
  result_name,
  subject_members,
};
ghost use Rattle.conode_explain_forms.specs.JsonLines.{kind_members, part_tokens};

use crate::json_content::put_interface;
use crate::json_lines::{put_kind, put_said, put_stamp};
use co_text::push_u32;
use conode_explain_filter::Kind;
use conode_explain_text::{StampForm, Times};
use conode_explain_transfers::{Direction, Ended, Ending, Protocol, Side};
use conode_json::JsonWriter;
use std::alloc::{AllocError, Global};

fn direction_name(direction: Direction) -> &'static str
    ensures { result.now ≡ direction_text direction }
{
    match direction {
        Direction::Download => "download",
        Direction::Upload => "upload",
    }
}

fn side_name(side: Side) -> &'static str
    ensures { result.now ≡ side_text side }
{
    match side {
        Side::Client => "client",
        Side::Server => "server",
    }
}

fn result_name(ending: Ending) -> &'static str
    ensures { result.now ≡ result_name ending }
{
    match ending {
        Ending::Done { crc: _ } => "done",
        Ending::Aborted { by: _, code: _ } => "aborted",
        Ending::Unanswered => "unanswered",
        Ending::Repeated => "repeated",
        Ending::Interrupted => "interrupted",
        Ending::Unfinished => "unfinished",
        Ending::Irregular => "irregular",
        Ending::SizeDiffers { indicated: _ } => "sizeDiffers",
        Ending::CrcDiffers {
            came: _,
            computed: _,
        } => "crcDiffers",
        Ending::NotFollowed { next: _ } => "notFollowed",
    }
}

fn put_protocol(writer: &mut JsonWriter, protocol: Protocol) -> Result<(), AllocError>
    ensures { OnOk result (writer.new ≡ writer.old ++ protocol_members protocol) }
{
    match protocol {
        Protocol::Undecided => Ok(()),
        Protocol::Expedited => writer.put_text("protocol", "expedited"),
        Protocol::Segmented => writer.put_text("protocol", "segmented"),
        Protocol::Block => writer.put_text("protocol", "block"),
    }
}

// `text` is scratch space
fn put_abort(writer: &mut JsonWriter, text: &mut String, ending: Ending) -> Result<(), AllocError>
    ensures { OnOk result (writer.new ≡ writer.old ++ abort_members ending) }
{
    let Ending::Aborted { by, code } = ending else {
        return Ok(());
    };
    attempt!(writer.put_text("abortedBy", side_name(by)));
    text.clear();
    attempt!(push_u32(text, code.0));
    writer.put_text("abortCode", text.as_str())
}

// the entry, the direction and the protocol
#[tactic(auto, unfolding(crate::specs::EndLines::subject_members))]
fn put_subject(alloc: Global, writer: &mut JsonWriter, ended: &Ended) -> Result<(), AllocError>
    ensures { OnOk result (writer.new ≡ writer.old ++ subject_members ended.now) }
{
    attempt!(writer.put_number(alloc, "index", i128::from(ended.key.index)));
    attempt!(writer.put_number(alloc, "subIndex", i128::from(ended.key.sub)));
    attempt!(writer.put_text("direction", direction_name(ended.direction)));
    put_protocol(writer, ended.protocol)
}

// how it ended
#[tactic(auto, unfolding(crate::specs::EndLines::result_members))]
fn put_result(
    alloc: Global,
    writer: &mut JsonWriter,
    text: &mut String,
    ended: &Ended,
) -> Result<(), AllocError>
    ensures { OnOk result (writer.new ≡ writer.old ++ result_members ended.now) }
{
    let micros = ended.end.saturating_sub(ended.begun);
    attempt!(writer.put_text("result", result_name(ended.ending)));
    attempt!(writer.put_number(alloc, "bytes", i128::from(ended.bytes)));
    attempt!(writer.put_number(alloc, "frames", i128::from(ended.frames)));
    attempt!(writer.put_number(alloc, "duration", i128::from(micros)));
    put_abort(writer, text, ended.ending)
}

// the tokens of the line in the order in which they are written
fn put_end_line(
    alloc: Global,
    writer: &mut JsonWriter,
    text: &mut String,
    form: StampForm,
    times: Times,
    name: &[u8],
    words: &[u8],
    node: u8,
    ended: &Ended,
) -> Result<(), AllocError>
    ensures { OnOk result (writer.new ≡ writer.old ++ begin_object ∷ []
        ++ part_tokens (stamp form times) ++ part_tokens (interface name.now)
        ++ part_tokens (said words.now)
        ++ kind_members Kind.Sdo (Some node) ++ subject_members ended.now
        ++ result_members ended.now ++ end_object ∷ []) }
{
    attempt!(writer.begin_object());
    attempt!(put_stamp(alloc, writer, text, form, times));
    attempt!(put_interface(writer, text, name));
    attempt!(put_said(alloc, writer, words));
    attempt!(put_kind(alloc, writer, Kind::Sdo, Some(node)));
    attempt!(put_subject(alloc, writer, ended));
    attempt!(put_result(alloc, writer, text, ended));
    writer.end_object()
}

/// The line of a node's SDO transfer that ended, with these words, as an object of JSON and a line
/// feed: the stamp of the frame that ended it, its interface, the words, the kind, the node, and
/// what is known of the transfer. On an `Err` memory ran out.
pub fn end_json_line(
    alloc: Global,
    form: StampForm,
    times: Times,
    name: &[u8],
    words: &[u8],
    node: u8,
    ended: &Ended,
) -> Result<Vec<u8>, AllocError>
    ensures { IfOk result (λ line. line.items
        ≡ end_json_line node ended.now (own_parts form times true name.now words.now)) }
{
    let mut text = String::new(alloc);
    let mut writer = JsonWriter::new(alloc);
    attempt!(put_end_line(
        alloc,
        &mut writer,
        &mut text,
        form,
        times,
        name,
        words,
        node,
        ended,
    ));
    writer.into_text()
}
