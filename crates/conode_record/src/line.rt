//! What a line of a recording says.

ghost use Rattle.std.specs.Prelude.{◌≡◌, Ok, IfOk};
ghost use Rattle.conode_record.specs.declared.line.RecordLine.{RecordLine};
ghost use Rattle.conode_record.specs.Grammar.{SpellsLine, HasIdentifier};
ghost use Rattle.conode_record.specs.Lines.{frame_in, is_skipped, line_in};

use crate::bad_line::BadLine;
use crate::content::{Content, Direction, data_in, is_other, other_in};
use crate::fields::{Identifier, identifier_at, interface_at};
use crate::interface::Interface;
use crate::numbers::stamp_at;

/// A frame of a recording.
#[derive(Drop)]
pub struct Record<'a> {
    /// When it was seen, in microseconds; below 10^18.
    pub micros: u64,
    /// The interface that it was seen on.
    pub interface: Interface<'a>,
    /// Its identifier.
    pub id: Identifier,
    /// Its data, or the length of a remote frame.
    pub content: Content<'a>,
    /// Whether it was received or sent, where the line says so.
    pub direction: Option<Direction>,
}

/// What a line of a recording says.
#[derive(Drop)]
pub enum RecordLine<'a> {
    /// Nothing: it is empty, a comment (`;`), or an event line of a trace (`!`).
    Skipped,
    /// A frame.
    Frame(Record<'a>),
}

impl<'a> RecordLine<'a> {
    /// Reads a line without its line feed; `Err` says what is wrong with it.
    pub fn read(line: &'a [u8]) -> Result<RecordLine<'a>, BadLine>
        ensures exact { result ≡ line_in line.now }
        // The line spells what is found, and what it spells is found: it spells one thing at most.
        ensures found { IfOk result (λ says. SpellsLine says line.now) }
        ensures identifier { IfOk result HasIdentifier }
        ensures only { (says : RecordLine) → SpellsLine says line.now → result ≡ Ok says }
    {
        RecordLine::of_line(line)
    }

    #[tactic(auto, unfolding(crate::specs::Lines::line_in))]
    #[inline(always)]
    fn of_line(line: &'a [u8]) -> Result<RecordLine<'a>, BadLine>
        ensures { result ≡ line_in line.now }
    {
        if is_skipped(line) {
            return Ok(RecordLine::Skipped);
        }
        frame_in(line)
    }
}

#[inline(always)]
fn is_skipped(line: &[u8]) -> bool
    ensures { result ≡ is_skipped line.now }
{
    line.is_empty() || line[0] == b';' || line[0] == b'!'
}

// the frame of a line
#[tactic(auto, unfolding(crate::specs::Lines::frame_in, crate::specs::Contents::content_in))]
#[inline(always)]
fn frame_in(line: &[u8]) -> Result<RecordLine<'_>, BadLine>
    ensures { result ≡ frame_in line.now }
{
    let Some((micros, rest)) = stamp_at(line) else {
        return Err(BadLine::Stamp);
    };
    let Some((interface, rest)) = interface_at(rest) else {
        return Err(BadLine::Interface);
    };
    let Some((id, rest)) = identifier_at(rest) else {
        return Err(BadLine::Identifier);
    };
    if is_other(rest) {
        let (content, direction) = match other_in(rest) {
            Ok(found) => found,
            Err(bad) => return Err(bad),
        };
        return Ok(RecordLine::Frame(Record {
            micros,
            interface,
            id,
            content,
            direction,
        }));
    }
    let (bytes, direction) = match data_in(rest) {
        Ok(found) => found,
        Err(bad) => return Err(bad),
    };
    Ok(RecordLine::Frame(Record {
        micros,
        interface,
        id,
        content: Content::Data(bytes),
        direction,
    }))
}
