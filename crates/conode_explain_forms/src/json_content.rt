//! Interface, identifier, length and data of a frame as members.

ghost use Rattle.std.specs.Prelude.{◌≡◌, ◌≤◌, ◌++◌, OnOk, string_bytes, length};
ghost use Rattle.conode_record.specs.Grammar.{IsIdentifier};
ghost use Rattle.conode_explain_text.specs.Lines.{content, identifier, interface};
ghost use Rattle.conode_explain_forms.specs.JsonLines.{data_members, frame_members, part_tokens};

use co_text::push_bytes;
use conode_explain_text::{push_id, push_name};
use conode_json::JsonWriter;
use conode_record::{Content, Identifier};
use std::alloc::{AllocError, Global};

/// The interface; `text` is scratch space.
pub(crate) fn put_interface(
    writer: &mut JsonWriter,
    text: &mut String,
    name: &[u8],
) -> Result<(), AllocError>
    ensures { OnOk result (writer.new ≡ writer.old ++ part_tokens (interface name.now)) }
{
    text.clear();
    attempt!(push_name(text, name));
    writer.put_text("interface", text.as_str())
}

/// The identifier; `text` is scratch space.
pub(crate) fn put_id(
    writer: &mut JsonWriter,
    text: &mut String,
    id: Identifier,
) -> Result<(), AllocError>
    requires { IsIdentifier id }
    ensures { OnOk result (writer.new ≡ writer.old ++ part_tokens (identifier id)) }
{
    text.clear();
    attempt!(push_id(text, id));
    attempt!(writer.put_text("id", text.as_str()));
    match id {
        Identifier::Base(_) | Identifier::Extended(_) => Ok(()),
        Identifier::Error(_) => writer.put_flag("error", true),
    }
}

#[tactic(auto, unfolding(crate::specs::JsonLines::data_members))]
fn put_data(
    alloc: Global,
    writer: &mut JsonWriter,
    digits: &mut String,
    count: usize,
    bytes: &[u8],
) -> Result<(), AllocError>
    ensures { OnOk result (writer.new ≡ writer.old ++ data_members count bytes.now) }
{
    digits.clear();
    attempt!(push_bytes(digits, bytes));
    attempt!(writer.put_number(alloc, "length", count as i128));
    attempt!(writer.put_numbers("data", bytes));
    writer.put_text("raw", digits.as_str())
}

// which sort of frame it is, its flags, where it has some, its length and its data
fn put_frame(
    alloc: Global,
    writer: &mut JsonWriter,
    digits: &mut String,
    sort: &str,
    flags: Option<i128>,
    count: usize,
    bytes: &[u8],
) -> Result<(), AllocError>
    ensures { OnOk result
        (writer.new ≡ writer.old ++ frame_members sort.now flags count bytes.now) }
{
    attempt!(writer.put_text("frame", sort));
    attempt!(writer.put_number_if(alloc, "flags", flags));
    put_data(alloc, writer, digits, count, bytes)
}

/// The length and the data of a frame; `digits` is scratch space.
pub(crate) fn put_content(
    alloc: Global,
    writer: &mut JsonWriter,
    digits: &mut String,
    has: &Content<'_>,
) -> Result<(), AllocError>
    ensures { OnOk result (writer.new ≡ writer.old ++ part_tokens (content has.now)) }
{
    match has {
        Content::Data(bytes) => {
            let bytes = bytes.to_list();
            put_frame(
                alloc,
                writer,
                digits,
                "data",
                None,
                bytes.len(),
                bytes.as_slice(),
            )
        }
        Content::Remote(count) => {
            put_frame(alloc, writer, digits, "remote", None, *count as usize, &[])
        }
        Content::Fd(flags, data) => {
            let bytes = data.bytes();
            let flags = Some(*flags as i128);
            put_frame(
                alloc,
                writer,
                digits,
                "fd",
                flags,
                bytes.len(),
                bytes.as_slice(),
            )
        }
    }
}
