//! Pairs of hexadecimal digits.

ghost use Rattle.std.specs.Prelude.{◌≡◌, ◌+◌, ◌*◌, ◌<◌, ◌≤◌, ◌∷◌, [], length, IfSome, IfNone};
ghost use Rattle.std.specs.Option.{option_map};
ghost use Rattle.co_text.specs.Texts.{hex_pair};
ghost use Rattle.co_text.specs.HexPairs.{pair_at, pairs_at, pairs_in, hex_in, byte_in, word_in, bytes_in};

use crate::hex_digits::hex_digit;
use arrayvec::ArrayVec;
use std::marker::Model;

#[inline(always)]
fn hex_pair(high: u8, low: u8) -> Option<u8>
    ensures { result ≡ hex_pair high low }
{
    let high = hex_digit(high)?;
    let low = hex_digit(low)?;
    Some(16 * high + low)
}

/// The byte that the two digits at the front spell, and what follows; `None` where there is no
/// pair.
#[inline(always)]
pub fn pair_at(text: &[u8]) -> Option<(u8, &[u8])>
    ensures exact { option_map (λ found. (found.0, found.1.now)) result ≡ pair_at text.now }
    ensures shorter { IfSome result (λ found. length found.1.now < length text.now) }
{
    let [high, low, rest @ ..] = text else {
        return None;
    };
    Some((hex_pair(*high, *low)?, rest))
}

// what follows the pairs at the front
fn past_pairs(text: &[u8]) -> &[u8]
    ensures { result.now ≡ (pairs_at text.now).1 }
{
    let mut rest = text;
    while let Some((_, after)) = pair_at(rest) {
        rest = after;
    }
    rest
}

/// Bytes spelled in pairs of hexadecimal digits of either case. The text is borrowed, and each byte
/// is decoded when it is asked for. Contracts see the bytes.
#[derive(Debug, Drop)]
pub struct HexPairs<'a> {
    digits: &'a [u8],
}

impl<'a> Model for HexPairs<'a> {
    ghost use Rattle.std.specs.Prelude.{ℕ, List};

    ghost Value = { List ℕ };

    ghost use Rattle.co_text.specs.HexPairs.{ArePairs, pairs_at};

    ghost view = { λ h. (pairs_at h.digits.now).0 };

    ghost invariant = { λ h. ArePairs h.digits.now };
}

impl<'a> HexPairs<'a> {
    /// Parses a word of one or more pairs of digits, or `-` for no bytes; `None` for every other
    /// word, also for the empty one.
    #[tactic(auto, unfolding(crate::specs::HexPairs::hex_in))]
    pub fn read(word: &'a [u8]) -> Option<HexPairs<'a>>
        ensures { result ≡ hex_in word.now }
    {
        if word.is_empty() {
            return None;
        }
        if word == b"-".as_slice() {
            return Some(HexPairs { digits: &[] });
        }
        HexPairs::of_pairs(word)
    }

    #[tactic(auto, unfolding(crate::specs::HexPairs::pairs_in))]
    fn of_pairs(text: &'a [u8]) -> Option<HexPairs<'a>>
        ensures { result ≡ pairs_in text.now }
    {
        if past_pairs(text).is_empty() {
            Some(HexPairs { digits: text })
        } else {
            None
        }
    }

    /// How many bytes are left.
    pub fn len(&self) -> usize
        ensures { result ≡ length self.now }
    {
        self.digits.len() / 2
    }

    /// The bytes that are left; there must be at most 256.
    pub fn bytes(&self) -> ArrayVec<u8, 256>
        requires { length self.now ≤ 256 }
        ensures { result.items ≡ self.now }
    {
        let mut bytes = ArrayVec::new();
        let mut rest = self.digits;
        while let Some((byte, after)) = pair_at(rest) {
            bytes.push(byte);
            rest = after;
        }
        bytes
    }

    /// Takes the next byte; `None` where none is left.
    pub fn next(&mut self) -> Option<u8>
        ensures taken { IfSome result (λ byte. self.old ≡ byte ∷ self.new) }
        ensures end { IfNone result ((self.old ≡ []) × (self.new ≡ [])) }
    {
        let (byte, rest) = pair_at(self.digits)?;
        self.digits = rest;
        Some(byte)
    }
}

/// Parses a word of two hexadecimal digits; `None` for every other word.
pub fn byte_in(word: &[u8]) -> Option<u8>
    ensures { result ≡ byte_in word.now }
{
    match word {
        [high, low] => hex_pair(*high, *low),
        _ => None,
    }
}

/// Parses a word of four hexadecimal digits; `None` for every other word.
pub fn word_in(word: &[u8]) -> Option<u16>
    ensures { result ≡ word_in word.now }
{
    let [a, b, c, d] = word else {
        return None;
    };
    let high = hex_pair(*a, *b)?;
    let low = hex_pair(*c, *d)?;
    Some(256 * u16::from(high) + u16::from(low))
}

/// Parses a word of ten hexadecimal digits as five bytes; `None` for every other word.
pub fn five_bytes_in(word: &[u8]) -> Option<[u8; 5]>
    ensures { result ≡ bytes_in 5 word.now }
{
    let mut pairs = HexPairs::of_pairs(word)?;
    if pairs.len() != 5 {
        return None;
    }
    Some([
        pairs.next()?,
        pairs.next()?,
        pairs.next()?,
        pairs.next()?,
        pairs.next()?,
    ])
}
