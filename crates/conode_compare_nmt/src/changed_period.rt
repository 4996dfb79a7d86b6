//! A period of heartbeats that may still run once 1017:00 has another: CiA 301 doesn't say when a
//! change takes effect. Where the old one isn't known, it may be any.

ghost use Rattle.std.specs.Prelude.{◌≡◌};
ghost use Rattle.conode_compare_nmt.specs.Heartbeats.{
  answered_at,
  former_after,
  former_asked,
  longest,
  may_be_of_change,
  newest_asked,
  period_asked,
  period_asked_by,
  runs_still,
  with_asked,
  with_former,
  word_asked,
};

use crate::clients::is_channel;
use crate::heartbeats::{Heartbeats, LONGEST_PERIOD, allowance};
use crate::limits::Limits;
use crate::nmt::Nmt;
use crate::states::{same_state, state_of};
use co_frame::Frame;
use co_profile::keys::PRODUCER_HEARTBEAT;
use co_value::Key;
use conode_compare_transfers::{asks_to_write, byte_at, is_past, key_in};
use conode_explain_transfers::Side;

// the longest period that may run, where a client asks to write this entry: what 1017:00 has, or
// any, where that isn't known, or the client of another SDO channel may write it then
fn period_asked(key: Key, period: Option<u16>) -> Option<u16>
    ensures { result ≡ period_asked key period }
{
    if is_channel(key) {
        Some(LONGEST_PERIOD)
    } else if key == PRODUCER_HEARTBEAT {
        Some(period.unwrap_or(LONGEST_PERIOD))
    } else {
        None
    }
}

/// The longest period, in ms, that may run, where a frame of an end of the default SDO channel asks
/// to write 1017:00 (CiA 301, 7.5.2.20), or to let another client write it (7.5.2.33); `period`: what
/// that has, where it is known.
pub fn period_asked_by(side: Side, frame: &Frame, period: Option<u16>) -> Option<u16>
    ensures { result ≡ period_asked_by side frame.now period }
{
    match side {
        Side::Client if asks_to_write(frame) => period_asked(key_in(frame), period),
        _ => None,
    }
}

// what a client's frame asks to write to 1017:00 in one frame, of two bytes
fn word_asked(frame: &Frame) -> Option<u16>
    ensures { result ≡ word_asked frame.now }
{
    if frame.bytes().len() == 8 && byte_at(frame, 0) == 0x2B {
        Some(byte_at(frame, 4) as u16 + byte_at(frame, 5) as u16 * 256)
    } else {
        None
    }
}

/// What a client asked last to write to 1017:00, in ms, once a frame of an end of the default SDO
/// channel comes: where that is one of two bytes, expedited (CiA 301, 7.2.4.3.3); `before`: before it.
pub fn newest_asked(side: Side, frame: &Frame, before: Option<u16>) -> Option<u16>
    ensures { result ≡ newest_asked side frame.now before }
{
    match side {
        Side::Client if asks_to_write(frame) && key_in(frame) == PRODUCER_HEARTBEAT => {
            word_asked(frame)
        }
        _ => before,
    }
}

// the longest of the periods that may run
fn longest(former: Option<u16>, period: u16) -> u16
    ensures { result ≡ longest former period }
{
    match former {
        Some(former) if former >= period => former,
        _ => period,
    }
}

/// The longest period that may run, in ms, where that which ran, `asked`, is asked to be replaced.
pub fn former_asked(asked: Option<u16>, former: Option<u16>) -> Option<u16>
    ensures { result ≡ former_asked asked former }
{
    match asked {
        Some(period) => Some(longest(former, period)),
        None => former,
    }
}

// when the answer came since which what 1017:00 has is known again
fn answered_at(
    before: Option<u16>,
    after: Option<u16>,
    answered: Option<u64>,
    micros: u64,
) -> Option<u64>
    ensures { result ≡ answered_at before after answered micros }
{
    match (before, after) {
        (None, Some(_)) => Some(micros),
        _ => answered,
    }
}

impl Nmt {
    /// Whether a heartbeat with this byte may be sent at a change of the state: it is the first that
    /// shows this one, or the one that a command leads to.
    pub fn may_be_of_change(&self, byte: u8) -> bool
        ensures { result ≡ may_be_of_change self.now byte }
    {
        let shown = state_of(byte);
        !same_state(shown, self.state) || same_state(shown, self.due)
    }
}

impl Heartbeats {
    /// A frame of the SDO channel came at a stamp in microseconds, and what is known of 1017:00, in ms,
    /// before it and after it: where that is known again, it is the answer. `asked`: the longest period
    /// that may run, where it asks to write that.
    pub fn with_former(
        self,
        asked: Option<u16>,
        before: Option<u16>,
        after: Option<u16>,
        micros: u64,
    ) -> Heartbeats
        ensures { result ≡ with_former self asked before after micros }
    {
        Heartbeats {
            guarded: self.guarded,
            since: self.since,
            awaited: self.awaited,
            sent: self.sent,
            shown: self.shown,
            slow: self.slow,
            former: former_asked(asked, self.former),
            answered: answered_at(before, after, self.answered, micros),
            asked: self.asked,
        }
    }

    /// A client asked last to write this, in ms, to 1017:00.
    pub fn with_asked(self, asked: Option<u16>) -> Heartbeats
        ensures { result ≡ with_asked asked self }
    {
        let mut heartbeats = self;
        heartbeats.asked = asked;
        heartbeats
    }

    /// Whether a period that ran when 1017:00 was written may still run.
    pub(crate) fn runs_still(&self, limits: &Limits, free: u64) -> bool
        ensures { result ≡ runs_still limits.now self.now.former self.now.answered free }
    {
        match (self.answered, self.former) {
            (Some(answered), Some(former)) => {
                free.saturating_sub(answered) <= allowance(limits, former)
            }
            _ => false,
        }
    }

    /// Which such period, in ms, may still run after a heartbeat, by what 1017:00 has: none. One that
    /// comes within the tolerance after the answer may have been on its way before the write, and after
    /// one that may be sent `aside`, early or at a change of the state, the period goes on. The bus was
    /// free last at `free`, in microseconds.
    pub fn former_after(
        &self,
        limits: &Limits,
        aside: bool,
        period: Option<u16>,
        free: u64,
    ) -> Option<u16>
        ensures { result
            ≡ former_after limits.now aside self.now.former period self.now.answered free }
    {
        match (period, self.answered) {
            (Some(_), Some(answered)) if aside || !is_past(answered, limits.tolerance, free) => {
                self.former
            }
            (Some(_), _) => None,
            (None, _) => self.former,
        }
    }
}
