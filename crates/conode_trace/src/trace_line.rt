//! What the lines of a CAN trace say.

ghost use Rattle.std.specs.Prelude.{◌≡◌, ◌<◌, Option, Some, IfSome};
ghost use Rattle.conode_trace.specs.declared.trace_line.TraceLine.{TraceLine};
ghost use Rattle.conode_trace.specs.Grammar.{SpellsLine};
ghost use Rattle.conode_trace.specs.FrameLines.{
  frame_at,
  frame_line_in,
  is_skipped,
  line_in,
  line_of,
  IsIdentifier,
  WritesFewBytes,
};

use crate::event_line::{EventLine, event_line};
use crate::frame_fields::{
    Body, Identifier, body_in, identifier_at, past_blanks, past_name, stamp_at,
};
use co_frame::Frame;

/// The greatest number of bytes of a line, without its line feed.
const LONGEST: usize = 512;

/// What a line of a trace says: a frame as `candump -L` writes it, or an event.
#[derive(Drop)]
pub enum TraceLine<'a> {
    /// An empty line, or a comment.
    Skipped,
    /// A frame that this device doesn't take: a remote frame, a CAN FD frame, or one with an
    /// identifier of 29 bits.
    PassedOver {
        /// When the frame was seen, in ms.
        stamp: u64,
    },
    /// A data frame.
    Data {
        /// When the frame was seen, in ms.
        stamp: u64,
        /// The frame.
        frame: Frame,
    },
    /// An event line.
    Event(EventLine<'a>),
}

impl<'a> TraceLine<'a> {
    /// Reads a line without its line feed; `None` if it is no line of a trace, or longer than 512
    /// bytes.
    pub fn read(line: &'a [u8]) -> Option<TraceLine<'a>>
        ensures exact { result ≡ line_in line.now }
        ensures few { IfSome result WritesFewBytes }
        // The line spells what is found, and what it spells is found: it spells one thing at most.
        ensures found { IfSome result (λ says. SpellsLine says line.now) }
        ensures only { (says : TraceLine) → SpellsLine says line.now → result ≡ Some says }
    {
        TraceLine::of_line(line)
    }

    #[tactic(auto, unfolding(crate::specs::FrameLines::line_in))]
    fn of_line(line: &'a [u8]) -> Option<TraceLine<'a>>
        ensures { result ≡ line_in line.now }
    {
        if line.len() > LONGEST {
            return None;
        }
        if is_skipped(line) {
            return Some(TraceLine::Skipped);
        }
        if line[0] == b'!' {
            return Some(TraceLine::Event(given!(event_line(line))));
        }
        frame_line(line)
    }
}

#[inline(always)]
fn is_skipped(line: &[u8]) -> bool
    ensures { result ≡ is_skipped line.now }
{
    line.is_empty() || line[0] == b';'
}

#[tactic(auto, unfolding(crate::specs::FrameLines::frame_line_in))]
#[inline(always)]
fn frame_line(line: &[u8]) -> Option<TraceLine<'static>>
    ensures { result ≡ frame_line_in line.now }
{
    let (stamp, rest) = given!(stamp_at(line));
    let name = given!(past_blanks(rest));
    let blanks = given!(past_name(name));
    let frame = given!(past_blanks(blanks));
    frame_at(stamp, frame)
}

#[tactic(auto, unfolding(crate::specs::FrameLines::frame_at))]
#[inline(always)]
fn frame_at(stamp: u64, text: &[u8]) -> Option<TraceLine<'static>>
    ensures { result ≡ frame_at stamp text.now }
{
    let (id, text) = given!(identifier_at(text));
    let body = given!(body_in(text));
    Some(line_of(stamp, id, &body))
}

#[inline(always)]
fn line_of(stamp: u64, id: Identifier, body: &Body) -> TraceLine<'static>
    requires { IsIdentifier id }
    ensures { result ≡ line_of stamp id body.now }
{
    match (id, body) {
        (Identifier::Base(id), Body::Bytes(bytes)) => TraceLine::Data {
            stamp,
            frame: Frame::packed(id, bytes),
        },
        _ => TraceLine::PassedOver { stamp },
    }
}
