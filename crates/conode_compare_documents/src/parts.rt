//! JSON in parts: brackets, and members of objects. Each function with a writer writes tokens.
//! `Err`: out of memory; some tokens may be there.

ghost use Rattle.std.specs.Prelude.{◌≡◌, [], ◌∷◌, ◌++◌, option_map, IfOk, None, OnOk, Some};
ghost use Rattle.std.specs.List.{flat_map};
ghost use Rattle.std.specs.Option.{option_copied};
ghost use Rattle.json.specs.Print.{print};
ghost use Rattle.co_text.specs.Printed.{digits_text};
ghost use Rattle.conode_json.specs.Appended.{Appended};
ghost use Rattle.conode_json.specs.Members.{text_member};
ghost use Rattle.conode_compare_documents.specs.Members.{member_name};
ghost use Rattle.conode_compare_documents.specs.Parts.{bytes_if, part_tokens};

use crate::member::Member;
use co_text::push_u32;
use conode_json::JsonWriter;
use std::alloc::{AllocError, Global};
use std::marker::Model;

/// A part of a document, but for texts from outside, which have a function each: so it has no lifetime
/// parameter, with which the proof of the code would write out its type at each step.
#[derive(Clone, Copy)]
pub(crate) enum Part {
    BeginObject,
    EndObject,
    /// The beginning of a member that is an object.
    Object(Member),
    /// The beginning of a member that is an array.
    Array(Member),
    EndArray,
    /// A text of the program.
    Text(Member, &'static str),
    Number(Member, u64),
    /// A number, nothing for `None`.
    NumberIf(Member, Option<u64>),
    Flag(Member, bool),
    /// Eight hexadecimal digits.
    Code(Member, u32),
}

fn put_code(alloc: Global, writer: &mut JsonWriter, name: &str, code: u32) -> Result<(), AllocError>
    ensures { OnOk result
        (writer.new ≡ writer.old ++ text_member name.now (digits_text 16 8 code)) }
{
    let mut digits = String::new(alloc);
    push_u32(&mut digits, code)?;
    writer.put_text(name, digits.as_str())
}

fn put_text(writer: &mut JsonWriter, member: Member, text: &str) -> Result<(), AllocError>
    ensures { OnOk result
        (writer.new ≡ writer.old ++ text_member (member_name member) text.now) }
{
    writer.put_text(member.name(), text)
}

fn put_bytes(
    alloc: Global,
    writer: &mut JsonWriter,
    member: Member,
    bytes: Option<&[u8]>,
) -> Result<(), AllocError>
    ensures { OnOk result (writer.new
        ≡ writer.old ++ bytes_if (member_name member) (option_copied bytes.entry)) }
{
    match bytes {
        Some(bytes) => writer.put_bytes(alloc, member.name(), bytes),
        None => Ok(()),
    }
}

fn put_part(alloc: Global, writer: &mut JsonWriter, part: &Part) -> Result<(), AllocError>
    ensures { OnOk result (writer.new ≡ writer.old ++ part_tokens part.now) }
{
    match *part {
        Part::BeginObject => writer.begin_object(),
        Part::EndObject => writer.end_object(),
        Part::Object(member) => writer.begin_object_of(member.name()),
        Part::Array(member) => writer.begin_array_of(member.name()),
        Part::EndArray => writer.end_array(),
        Part::Text(member, text) => put_text(writer, member, text),
        Part::Number(member, number) | Part::NumberIf(member, Some(number)) => {
            writer.put_number(alloc, member.name(), i128::from(number))
        }
        Part::NumberIf(_, None) => Ok(()),
        Part::Flag(member, is) => writer.put_flag(member.name(), is),
        Part::Code(member, code) => put_code(alloc, writer, member.name(), code),
    }
}

fn put_parts(alloc: Global, writer: &mut JsonWriter, parts: &[Part]) -> Result<(), AllocError>
    ensures { OnOk result (writer.new ≡ writer.old ++ flat_map part_tokens parts.now) }
{
    for part in parts {
        put_part(alloc, writer, part)?;
    }
    Ok(())
}

/// A document that is being written. Contracts see its tokens, and `None` once memory ran out. This
/// is remembered until `into_text`, so what appends to it returns nothing.
#[derive(Drop)]
pub(crate) struct Document {
    alloc: Global,
    writer: JsonWriter,
    is_whole: bool,
}

impl Model for Document {
    ghost use Rattle.std.specs.Prelude.{if◌then◌else◌, List, Option, None, Some};
    ghost use Rattle.std.specs.Coded.{coded_option};
    ghost use Rattle.json.specs.Token.{Token, tokens_code};

    ghost Value = { Option (List Token) };

    ghost coded = { coded_option tokens_code };

    ghost view = { λ d. if d.is_whole then Some d.writer else None };
}

impl Document {
    /// Nothing is written.
    pub(crate) fn new(alloc: Global) -> Self
        ensures { result ≡ Some [] }
    {
        Document {
            alloc,
            writer: JsonWriter::new(alloc),
            is_whole: true,
        }
    }

    /// Appends parts, one after another.
    #[tactic(auto, using(conode_text::proofs::Appending::kept, conode_text::proofs::Appending::never_whole))]
    pub(crate) fn put(&mut self, parts: &[Part])
        ensures { Appended self.old (flat_map part_tokens parts.now) self.new }
    {
        if !self.is_whole {
            return;
        }
        self.is_whole = put_parts(self.alloc, &mut self.writer, parts).is_ok();
    }

    /// Appends a text.
    #[tactic(auto, using(conode_text::proofs::Appending::kept, conode_text::proofs::Appending::never_whole))]
    pub(crate) fn put_text(&mut self, member: Member, text: &str)
        ensures { Appended self.old (text_member (member_name member) text.now) self.new }
    {
        if !self.is_whole {
            return;
        }
        self.is_whole = put_text(&mut self.writer, member, text).is_ok();
    }

    /// Appends a text from outside, in UTF-8; nothing for `None`.
    #[tactic(auto, using(conode_text::proofs::Appending::kept, conode_text::proofs::Appending::never_whole))]
    pub(crate) fn put_bytes(&mut self, member: Member, bytes: Option<&[u8]>)
        ensures { Appended self.old
            (bytes_if (member_name member) (option_copied bytes.entry)) self.new }
    {
        if !self.is_whole {
            return;
        }
        self.is_whole = put_bytes(self.alloc, &mut self.writer, member, bytes).is_ok();
    }

    /// Memory ran out for what is to be appended.
    pub(crate) fn fail(&mut self)
        ensures { self.new ≡ None }
    {
        self.is_whole = false;
    }

    /// The text, with a line feed at its end. `Err`: memory ran out.
    pub(crate) fn into_text(self) -> Result<Vec<u8>, AllocError>
        ensures { IfOk result (λ text.
            option_map (λ tokens. print tokens ++ 10 ∷ []) self ≡ Some text.items) }
    {
        let Document {
            writer,
            is_whole,
            ..
        } = self;
        if !is_whole {
            return Err(AllocError);
        }
        writer.into_text()
    }
}
