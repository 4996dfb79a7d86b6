//! Times of a filter.

ghost use Rattle.std.specs.Prelude.{◌≡◌, ◌<◌, ◌^◌, IfSome};
ghost use Rattle.conode_explain_filter.specs.Moments.{
  fraction_in,
  is_from,
  is_until,
  micros_in,
  moment_in,
  scale_of,
  seconds_in,
};

use co_text::{decimal_in, split_at_first};
use conode_explain_text::Times;

/// A time in microseconds.
#[derive(Clone, Copy)]
pub enum Moment {
    /// Since the first frame of the recording.
    SinceFirst(u64),
    /// As the stamps of the recording have it.
    Recorded(u64),
}

fn scale_of(count: usize) -> u64
    ensures value { result ≡ scale_of count }
    ensures small { result < 100001 }
{
    match count {
        1 => 100_000,
        2 => 10_000,
        3 => 1_000,
        4 => 100,
        5 => 10,
        _ => 1,
    }
}

#[tactic(auto, unfolding(crate::specs::Moments::fraction_in))]
fn fraction_in(word: &[u8]) -> Option<u64>
    ensures value { result ≡ fraction_in word.now }
    ensures small { IfSome result (λ micros. micros < 2 ^ 40) }
{
    if word.len() > 6 {
        return None;
    }
    match decimal_in(word, 0, 999_999) {
        Some(number) => Some(number as u64 * scale_of(word.len())),
        None => None,
    }
}

fn seconds_in(word: &[u8]) -> Option<u64>
    ensures value { result ≡ seconds_in word.now }
    ensures small { IfSome result (λ micros. micros < 2 ^ 52) }
{
    match decimal_in(word, 0, u32::MAX) {
        Some(seconds) => Some(1_000_000 * seconds as u64),
        None => None,
    }
}

#[tactic(auto, unfolding(crate::specs::Moments::micros_in))]
fn micros_in(word: &[u8]) -> Option<u64>
    ensures { result ≡ micros_in word.now }
{
    match split_at_first(word, b'.') {
        Some((seconds, fraction)) => match (seconds_in(seconds), fraction_in(fraction)) {
            (Some(seconds), Some(fraction)) => Some(seconds + fraction),
            _ => None,
        },
        None => seconds_in(word),
    }
}

impl Moment {
    /// The time that a word is: seconds with at most six digits after the point, since the first
    /// frame; after `@` as the stamps of the recording have it.
    pub(crate) fn read(word: &[u8]) -> Option<Moment>
        ensures { result ≡ moment_in word.now }
    {
        match word {
            [] => None,
            [b'@', rest @ ..] => match micros_in(rest) {
                Some(micros) => Some(Moment::Recorded(micros)),
                None => None,
            },
            _ => match micros_in(word) {
                Some(micros) => Some(Moment::SinceFirst(micros)),
                None => None,
            },
        }
    }

    /// Whether a frame comes at this time or later.
    pub(crate) fn is_from(&self, times: Times) -> bool
        ensures { result ≡ is_from times self.now }
    {
        match *self {
            Moment::SinceFirst(micros) => {
                times.first <= times.now && micros <= times.now - times.first
            }
            Moment::Recorded(micros) => micros <= times.now,
        }
    }

    /// Whether it comes at this time or before.
    pub(crate) fn is_until(&self, times: Times) -> bool
        ensures { result ≡ is_until times self.now }
    {
        match *self {
            Moment::SinceFirst(micros) => {
                times.now <= times.first || times.now - times.first <= micros
            }
            Moment::Recorded(micros) => times.now <= micros,
        }
    }
}
