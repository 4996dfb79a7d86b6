//! Event lines: what an application does to a device, and time that passes.

ghost use Rattle.std.specs.Prelude.{◌≡◌, ◌∷◌, [], bytes_eq};
ghost use Rattle.std.specs.Option.{option_map_or, option_copied};
ghost use Rattle.conode_trace.specs.declared.event_line.EventLine.TheVariants.{App};
ghost use Rattle.conode_trace.specs.Events.{
  HasFewBytes,
  event_in,
  event_of_one,
  event_of_three,
  event_of_two,
  words,
  written_bytes,
};

use arrayvec::ArrayVec;
use co_frame::AppEvent;
use co_text::{HexPairs, byte_in, decimal_in, five_bytes_in, split_at_first, word_in};
use co_value::Key;

/// An event line.
#[derive(Drop)]
pub enum EventLine<'a> {
    /// `!tick N`: 1 to 86,400,000 ticks of 1 ms.
    Ticks(u32),
    /// An event of the application: `!write KEY HEX`, with at most 256 bytes, `!event K`,
    /// `!changed KEY`, `!raise CODE BITS EXTRA`, `!clear BITS`.
    App(AppEvent<HexPairs<'a>>),
}

// the bytes before the first space, and those after it, if there is one
fn first_word(text: &[u8]) -> (&[u8], Option<&[u8]>)
    ensures { words text.now ≡ result.0.now ∷ option_map_or words (option_copied result.1) [] }
{
    match split_at_first(text, b' ') {
        Some((word, rest)) => (word, Some(rest)),
        None => (text, None),
    }
}

fn is_word(word: &[u8], name: &[u8]) -> bool
    ensures { result ≡ bytes_eq word.now name.now }
{
    word == name
}

#[tactic(auto, unfolding(crate::specs::Events::event_of_one))]
fn event_of_one<'a>(name: &[u8], word: &'a [u8]) -> Option<EventLine<'a>>
    ensures { result ≡ event_of_one name.now word.now }
{
    if is_word(name, b"!tick") {
        return Some(EventLine::Ticks(given!(decimal_in(word, 1, 86_400_000))));
    }
    if is_word(name, b"!event") {
        let number = given!(decimal_in(word, 0, 65_535));
        return Some(EventLine::App(AppEvent::Event(number as u16)));
    }
    if is_word(name, b"!changed") {
        return Some(EventLine::App(AppEvent::Changed(given!(Key::parse(word)))));
    }
    if is_word(name, b"!clear") {
        return Some(EventLine::App(AppEvent::Clear(given!(byte_in(word)))));
    }
    None
}

#[tactic(auto, unfolding(crate::specs::Events::event_of_two))]
fn event_of_two<'a>(name: &[u8], first: &[u8], second: &'a [u8]) -> Option<EventLine<'a>>
    ensures { result ≡ event_of_two name.now first.now second.now }
{
    if !is_word(name, b"!write") {
        return None;
    }
    let key = given!(Key::parse(first));
    let bytes = given!(HexPairs::read(second));
    Some(EventLine::App(AppEvent::Write(key, bytes)))
}

#[tactic(auto, unfolding(crate::specs::Events::event_of_three))]
fn event_of_three<'a>(
    name: &[u8],
    first: &[u8],
    second: &[u8],
    third: &[u8],
) -> Option<EventLine<'a>>
    ensures { result ≡ event_of_three name.now first.now second.now third.now }
{
    if !is_word(name, b"!raise") {
        return None;
    }
    let code = given!(word_in(first));
    let bits = given!(byte_in(second));
    let extra = given!(five_bytes_in(third));
    Some(EventLine::App(AppEvent::Raise(code, bits, extra)))
}

/// Reads an event line from its words; `None` if it isn't one.
#[tactic(auto, using(crate::proofs::Words::four_words))]
pub(crate) fn event_line(line: &[u8]) -> Option<EventLine<'_>>
    ensures { result ≡ event_in (words line.now) }
{
    let (name, rest) = first_word(line);
    let (first, rest) = first_word(given!(rest));
    let Some(rest) = rest else {
        return event_of_one(name, first);
    };
    let (second, rest) = first_word(rest);
    let Some(rest) = rest else {
        return event_of_two(name, first, second);
    };
    let (third, rest) = first_word(rest);
    if rest.is_some() {
        return None;
    }
    event_of_three(name, first, second, third)
}

/// The bytes that an event of the application writes, at most 256; none where it writes none.
pub fn written_bytes(event: &AppEvent<HexPairs<'_>>) -> ArrayVec<u8, 256>
    requires { HasFewBytes (App event.now) }
    ensures { result.items ≡ written_bytes event.now }
{
    match event {
        AppEvent::Write(_, pairs) => pairs.bytes(),
        _ => ArrayVec::new(),
    }
}
