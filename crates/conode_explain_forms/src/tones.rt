//! The colour of a line on a terminal.

ghost use Rattle.std.specs.Prelude.{◌≡◌, ◌++◌, OnOk};
ghost use Rattle.conode_explain_forms.specs.Tones.{
  abort_tone,
  boot_up_tone,
  data_of,
  data_tone,
  emergency_tone,
  ending_tone,
  frame_tone,
  in_colour,
  is_plain,
  odd_tone,
  or_odd,
  service_tone,
  start_of,
  toned,
};

use arrayvec::ArrayVec;
use conode_explain_filter::{Kind, Subject};
use conode_explain_text::{Seen, odd_words};
use conode_explain_transfers::Ending;
use conode_record::{Content, Identifier, Record};
use std::alloc::{AllocError, Global};

/// What the colour of a line says.
#[derive(Clone, Copy)]
pub enum Tone {
    /// Nothing: it has none.
    Plain,
    /// Something failed: red.
    Bad,
    /// A stamp is odd, or a transfer is unfinished: yellow.
    Odd,
    /// An error is gone, or a transfer is done: green.
    Good,
    /// A command, or a boot-up: cyan.
    Notable,
}

/// The bytes of a frame of data; none of another one.
pub fn data_of(content: &Content<'_>) -> ArrayVec<u8, 8>
    ensures { result.items ≡ data_of content.now }
{
    match content {
        Content::Data(bytes) => bytes.to_list(),
        Content::Remote(_) => ArrayVec::new(),
        Content::Fd(_, _) => ArrayVec::new(),
    }
}

fn emergency_tone(bytes: &[u8]) -> Tone
    ensures { result ≡ emergency_tone bytes.now }
{
    if bytes.len() == 8 && bytes[0] == 0 && bytes[1] == 0 {
        Tone::Good
    } else {
        Tone::Bad
    }
}

fn abort_tone(segment: bool, bytes: &[u8]) -> Tone
    ensures { result ≡ abort_tone segment bytes.now }
{
    if bytes.len() == 8 && bytes[0] / 32 == 4 && !segment {
        Tone::Bad
    } else {
        Tone::Plain
    }
}

fn boot_up_tone(bytes: &[u8]) -> Tone
    ensures { result ≡ boot_up_tone bytes.now }
{
    if bytes.len() == 1 && bytes[0] == 0 {
        Tone::Notable
    } else {
        Tone::Plain
    }
}

// the tone of data by its service
#[tactic(auto, unfolding(crate::specs::Tones::data_tone))]
fn data_tone(segment: bool, kind: Kind, bytes: &[u8]) -> Tone
    ensures { result ≡ data_tone segment kind bytes.now }
{
    match kind {
        Kind::Emergency => emergency_tone(bytes),
        Kind::Sdo => abort_tone(segment, bytes),
        Kind::Nmt => Tone::Notable,
        Kind::Heartbeat => boot_up_tone(bytes),
        Kind::Pdo | Kind::Sync | Kind::Other => Tone::Plain,
    }
}

fn service_tone(segment: bool, id: Identifier, kind: Kind, bytes: &[u8]) -> Tone
    ensures { result ≡ service_tone segment id kind bytes.now }
{
    match id {
        Identifier::Base(_) => data_tone(segment, kind, bytes),
        Identifier::Extended(_) => Tone::Plain,
        Identifier::Error(_) => Tone::Bad,
    }
}

fn odd_tone(is_odd: bool) -> Tone
    ensures { result ≡ odd_tone is_odd }
{
    if is_odd { Tone::Odd } else { Tone::Plain }
}

fn or_odd(is_odd: bool, tone: Tone) -> Tone
    ensures { result ≡ or_odd is_odd tone }
{
    match tone {
        Tone::Plain => odd_tone(is_odd),
        Tone::Bad | Tone::Odd | Tone::Good | Tone::Notable => tone,
    }
}

/// The tone of the line of a frame; `segment` is whether it is a segment of a block transfer, of which the
/// last one may look like an abort.
#[tactic(auto, unfolding(crate::specs::Tones::frame_tone))]
pub fn frame_tone(seen: &Seen, subject: &Subject, segment: bool, frame: &Record<'_>) -> Tone
    ensures { result ≡ frame_tone seen.now subject.now segment frame.now }
{
    let data = data_of(&frame.content);
    let is_odd = odd_words(seen.times(frame.micros)).is_some();
    or_odd(
        is_odd,
        service_tone(segment, frame.id, subject.kind, data.as_slice()),
    )
}

/// The tone of the line of a transfer that ended.
pub fn ending_tone(ending: Ending) -> Tone
    ensures { result ≡ ending_tone ending }
{
    match ending {
        Ending::Done { crc: _ } => Tone::Good,
        Ending::Unfinished => Tone::Odd,
        Ending::Aborted { by: _, code: _ }
        | Ending::Unanswered
        | Ending::Repeated
        | Ending::Interrupted
        | Ending::Irregular
        | Ending::SizeDiffers { indicated: _ }
        | Ending::CrcDiffers {
            came: _,
            computed: _,
        }
        | Ending::NotFollowed { next: _ } => Tone::Bad,
    }
}

// what begins the colour of a tone
fn start_of(tone: Tone) -> &'static str
    ensures { result.now ≡ start_of tone }
{
    match tone {
        Tone::Plain => "",
        Tone::Bad => "\x1b[31m",
        Tone::Odd => "\x1b[33m",
        Tone::Good => "\x1b[32m",
        Tone::Notable => "\x1b[36m",
    }
}

fn is_plain(tone: Tone) -> bool
    ensures { result ≡ is_plain tone }
{
    matches!(tone, Tone::Plain)
}

// appends a line in a colour
fn push_coloured(made: &mut Vec<u8>, start: &str, line: &[u8]) -> Result<(), AllocError>
    ensures { OnOk result (made.new.items ≡ made.old.items ++ in_colour start.now line.now) }
{
    let (text, _) = line.split_at(line.len().saturating_sub(1));
    attempt!(made.extend_from_slice(start.as_bytes()));
    attempt!(made.extend_from_slice(text));
    made.extend_from_slice(b"\x1b[0m\n")
}

/// Writes a line, whose last byte is a line feed, in the colour of a tone, where that is asked for.
/// On an `Err` memory ran out.
#[tactic(auto, unfolding(crate::specs::Tones::toned))]
pub fn put_tone(
    alloc: Global,
    line: &mut Vec<u8>,
    colours: bool,
    tone: Tone,
) -> Result<(), AllocError>
    ensures { OnOk result (line.new.items ≡ toned colours tone line.old.items) }
{
    if !colours || is_plain(tone) {
        return Ok(());
    }
    let mut made = Vec::new(alloc);
    attempt!(push_coloured(&mut made, start_of(tone), line.as_slice()));
    *line = made;
    Ok(())
}
