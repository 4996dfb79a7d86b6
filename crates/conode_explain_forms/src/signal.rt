//! The words that name signals.

ghost use Rattle.std.specs.Prelude.{
  ◌≡◌,
  ◌∷◌,
  [],
  ◌<◌,
  length,
  Ok,
  OnOk,
  IfOk,
  IfErr,
  IfSome,
  IfNone,
};
ghost use Rattle.conode_explain_forms.specs.Words.{IsFault, signal_word, signals_in, words_in};

use co_text::{decimal_in, split_at_first};
use co_value::Key;
use std::alloc::Global;

/// An entry of a node, whose values are written.
#[derive(Clone, Copy)]
pub struct Signal {
    /// The node-ID, 1 to 127.
    pub node: u8,
    /// The entry.
    pub key: Key,
}

/// What is wrong with the words that name signals.
#[derive(Clone, Copy)]
pub enum SignalFault<'a> {
    /// A word names no signal.
    Word(&'a str),
    /// Memory ran out.
    Memory,
}

// the first word, and the text after its comma; `None` where it is one word
fn first_word(text: &str) -> Option<(&str, &str)>
    ensures one { IfNone result (words_in text.now ≡ text.now ∷ []) }
    ensures more { IfSome result (λ cut. words_in text.now ≡ cut.0.now ∷ words_in cut.1.now) }
    ensures shorter { IfSome result (λ cut. length cut.1.now < length text.now) }
{
    text.split_once(',')
}

impl Signal {
    // The signal that a word names: a node-ID, a colon, and a key.
    #[tactic(auto, unfolding(crate::specs::Words::signal_word))]
    fn read(word: &[u8]) -> Option<Signal>
        ensures { result ≡ signal_word word.now }
    {
        let Some((node, key)) = split_at_first(word, b':') else {
            return None;
        };
        let Some(node) = decimal_in(node, 1, 127) else {
            return None;
        };
        let Some(key) = Key::parse(key) else {
            return None;
        };
        Some(Signal {
            node: node as u8,
            key,
        })
    }

    // Adds the signals that words name, where there are none yet.
    fn add_all<'a>(signals: &mut Vec<Signal>, text: &'a str) -> Result<(), SignalFault<'a>>
        requires { signals.old.items ≡ [] }
        ensures ok { OnOk result (signals_in text.now ≡ Ok signals.new.items) }
        ensures err { IfErr result (IsFault text.now) }
    {
        let mut rest = text;
        while let Some((word, more)) = first_word(rest) {
            let Some(signal) = Signal::read(word.as_bytes()) else {
                return Err(SignalFault::Word(word));
            };
            match signals.push(signal) {
                Ok(()) => rest = more,
                Err(_) => return Err(SignalFault::Memory),
            }
        }
        let Some(signal) = Signal::read(rest.as_bytes()) else {
            return Err(SignalFault::Word(rest));
        };
        match signals.push(signal) {
            Ok(()) => Ok(()),
            Err(_) => Err(SignalFault::Memory),
        }
    }

    /// The signals that words name, with a comma between two: each a node-ID from 1 to 127, a
    /// colon, an index in four hexadecimal digits, a colon, and a sub-index in two, as `5:2001:01`.
    /// `Word`: the first word that names none. `Memory`: memory ran out.
    pub fn read_all(alloc: Global, text: &str) -> Result<Vec<Signal>, SignalFault<'_>>
        ensures ok { IfOk result (λ found. signals_in text.now ≡ Ok found.items) }
        ensures err { IfErr result (IsFault text.now) }
    {
        let mut signals = Vec::new(alloc);
        attempt!(Signal::add_all(&mut signals, text));
        Ok(signals)
    }
}
