//! JSON in parts: brackets, and members of objects. Each function writes tokens. `Err`: out of
//! memory; some tokens may be there.

ghost use Rattle.std.specs.Prelude.{◌≡◌, ◌++◌, List, OnOk};
ghost use Rattle.json.specs.Token.{Token};
ghost use Rattle.conode_json.specs.Members.{count_member, text_member};
ghost use Rattle.conode_lint_text.specs.Findings.{column_of};
ghost use Rattle.conode_lint_text.specs.JsonForm.{part_tokens};
ghost use Rattle.conode_lint_text.specs.Members.{member_name};
ghost use Rattle.conode_lint_text.specs.TextForm.{piece_text};

use crate::column::own_column;
use crate::finding::{Finding, Rule, Severity};
use crate::member::Member;
use crate::pieces::Piece;
use crate::words::severity_name;
use conode_json::{HasTokens, JsonWriter};
use conode_text::HasText;
use std::alloc::{AllocError, Global};

/// A part of a document. It has no `Piece`: each step of code with a part by value would cost what all
/// texts of a piece do.
#[derive(Clone, Copy)]
pub(crate) enum Part<'a> {
    BeginObject,
    EndObject,
    EndArray,
    /// The beginning of a member that is an object.
    Object(Member),
    /// The beginning of a member that is an array.
    Array(Member),
    Text(Member, &'a str),
    Severity(Member, Severity),
    /// What is wrong.
    Message(Member, &'a Finding<'a>),
    /// How to fix what a rule is about, and the subject of the standard.
    Help(Member, &'a Rule<'a>),
    /// How many findings aren't listed, in words.
    LeftOut(Member, usize),
    /// A line of a file, in UTF-8.
    Line(Member, &'a [u8]),
    Number(Member, usize),
    /// The column of a finding.
    Column(Member, &'a Finding<'a>),
    Flag(Member, bool),
}

// a text that is made of a value
fn put_piece(
    alloc: Global,
    writer: &mut JsonWriter,
    member: Member,
    piece: Piece<'_>,
) -> Result<(), AllocError>
    ensures { OnOk result
        (writer.new ≡ writer.old ++ text_member (member_name member) (piece_text piece.entry)) }
{
    let mut text = String::new(alloc);
    match piece.push(&mut text) {
        Ok(()) => writer.put_text(member.name(), text.as_str()),
        Err(fault) => Err(fault),
    }
}

fn put_column(
    alloc: Global,
    writer: &mut JsonWriter,
    member: Member,
    finding: &Finding<'_>,
) -> Result<(), AllocError>
    ensures { OnOk result
        (writer.new ≡ writer.old ++ count_member (member_name member) (column_of finding.now)) }
{
    match own_column(alloc, finding) {
        Ok(column) => writer.put_count(member.name(), column as u64),
        Err(fault) => Err(fault),
    }
}

impl HasTokens for Part<'_> {
    ghost tokens_of = { part_tokens };

    fn put(&self, alloc: Global, writer: &mut JsonWriter) -> Result<(), AllocError> {
        match *self {
            Part::BeginObject => writer.begin_object(),
            Part::EndObject => writer.end_object(),
            Part::EndArray => writer.end_array(),
            Part::Object(member) => writer.begin_object_of(member.name()),
            Part::Array(member) => writer.begin_array_of(member.name()),
            Part::Text(member, text) => writer.put_text(member.name(), text),
            Part::Severity(member, severity) => {
                writer.put_text(member.name(), severity_name(severity))
            }
            Part::Message(member, finding) => {
                put_piece(alloc, writer, member, Piece::Message(finding))
            }
            Part::Help(member, rule) => {
                put_piece(alloc, writer, member, Piece::Help(rule.fix, rule.subject))
            }
            Part::LeftOut(member, more) => {
                put_piece(alloc, writer, member, Piece::LeftOut(more))
            }
            Part::Line(member, line) => writer.put_bytes(alloc, member.name(), line),
            Part::Number(member, count) => writer.put_count(member.name(), count as u64),
            Part::Column(member, finding) => put_column(alloc, writer, member, finding),
            Part::Flag(member, is) => writer.put_flag(member.name(), is),
        }
    }
}
