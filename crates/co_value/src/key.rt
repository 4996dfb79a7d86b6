//! The keys of the object dictionary.

ghost use Rattle.std.specs.Prelude.{◌≡◌, ◌↔◌, IsTrue, Some};

use arrayvec::ArrayString;
use co_text::{byte_digits, byte_in, word_digits, word_in};
use std::cmp::Ordering;
use std::fmt;

/// The key of an entry: its object's index and its sub-index, ordered by index and then by
/// sub-index (CiA 301, 7.4).
#[derive(Clone, Copy, Debug, PartialEq, Eq, PartialOrd, Ord, Hash)]
pub struct Key {
    /// 0000h to FFFFh.
    pub index: u16,
    /// 00h to FFh.
    pub sub: u8,
}

impl Key {
    ghost use Rattle.co_value.specs.Keys.{same_key, is_key_before, key_cmp};
    ghost use Rattle.co_value.specs.KeyTexts.{key_text, key_in};

    /// What `==`, `<` and `cmp` answer on two keys. This is a law: a call of it changes nothing.
    pub fn comparisons(self, other: Key) -> (bool, bool, Ordering)
        ensures equal { result.0 ≡ same_key self other }
        ensures same { IsTrue (same_key self other) ↔ (self ≡ other) }
        ensures before { result.1 ≡ is_key_before self other }
        ensures order { result.2 ≡ key_cmp self other }
    {
        (self == other, self < other, self.cmp(&other))
    }

    /// The key in four upper-case hexadecimal digits, a colon and two more: `1018:01`.
    pub fn text(self) -> ArrayString<7>
        ensures text { result.bytes ≡ key_text self }
        ensures read { key_in result.bytes ≡ Some self }
    {
        let mut text = ArrayString::new();
        text.push_str(word_digits(self.index).as_str());
        text.push(':');
        text.push_str(byte_digits(self.sub).as_str());
        text
    }

    /// Parses an index in four hexadecimal digits of either case, a colon, and a sub-index in two,
    /// as `1018:01`; `None` for every other word.
    #[tactic(auto, unfolding(crate::specs::KeyTexts::key_in))]
    pub fn parse(word: &[u8]) -> Option<Key>
        ensures { result ≡ key_in word.now }
    {
        match word {
            [index @ .., b':', e, f] if index.len() == 4 => {
                let index = word_in(index)?;
                let sub = byte_in(&[*e, *f])?;
                Some(Key { index, sub })
            }
            _ => None,
        }
    }
}

/// Prints the key as `text` has it.
impl fmt::Display for Key {
    ghost use Rattle.std.specs.Prelude.{Some};
    ghost use Rattle.co_value.specs.KeyTexts.{key_text};

    ghost output = { λ key. Some (key_text key) };

    fn fmt<W: fmt::Write>(&self, f: &mut fmt::Formatter<W>) -> fmt::Result {
        f.write_str(self.text().as_str())
    }
}
