//! A channel that is followed through a recording.

ghost use Rattle.std.specs.Prelude.{◌≡◌, ◌+◌, ◌&&◌, not, [], ◌∷◌, List, IsSome, IfSome};
ghost use Rattle.conode_explain_transfers.specs.declared.ended.Ending.TheVariants.{Unfinished};
ghost use Rattle.conode_explain_transfers.specs.Followed.{
  nothing_heard,
  abort_ending,
  boot_ending,
  broken_off,
  closed,
  ends_as,
  left,
  left_ending,
  one_more,
  begins,
  begun_after,
  stray,
  passes,
  aborts,
  with_frame,
  key_for,
  unless_lost,
  turns,
  followed_by,
  followed,
  after_boot,
  following_after,
  said,
  Event,
  Framed,
  BootedUp,
};
ghost use Rattle.conode_explain_transfers.specs.Readings.{IsReading};
ghost use Rattle.conode_explain_transfers.specs.Transfers.{after};
ghost use Rattle.conode_explain_transfers.specs.Turns.{turn_of};
ghost use Rattle.conode_explain_transfers.specs.Unanswered.{is_next_segment, may_be_segment, not_followed_by};

use crate::ended::{Ended, Ending};
use crate::initiate::Initiate;
use crate::kinds::{Side, What};
use crate::reading::{Reading, reading_of};
use crate::transfer::Transfer;
use crate::unanswered::{number_of, went_on_with};
use co_frame::{AbortCode, Frame};
use co_value::Key;
use std::marker::Model;

/// What a frame is, and the transfer that ended with it.
#[derive(Drop)]
pub struct Heard {
    /// What the frame is.
    pub what: What,
    /// The open transfer's entry; `None` where the frame has a key of its own, and once the client
    /// went on before the response to initiate, as the transfer may be none then.
    pub of: Option<Key>,
    /// The transfer that ended with the frame.
    pub ended: Option<Ended>,
}

/// The SDO transfers of one channel, followed frame by frame in constant memory. Any frames may
/// come, in any order.
#[derive(Drop)]
pub struct Channel {
    pub(crate) heard: bool,
    pub(crate) transfer: Option<Transfer>,
}

impl Model for Channel {
    ghost use Rattle.conode_explain_transfers.specs.Followed.{Following};

    ghost Value = { Following };

    ghost view = { λ channel. record { heard = channel.heard; transfer = channel.transfer } };
}

impl Transfer {
    // How the open transfer ends when the client begins another one with this request.
    fn left_ending(&self, frame: &Frame) -> Ending
        ensures { result ≡ left_ending self.now frame.now.bytes }
    {
        if self.segment_follows(frame) {
            return Ending::NotFollowed {
                next: Some(number_of(frame)),
            };
        }
        if self.is_lost() {
            return Ending::NotFollowed { next: None };
        }
        if self.is_same_request(frame) {
            return Ending::Repeated;
        }
        match self.by {
            Side::Client => Ending::Unanswered,
            Side::Server => Ending::Interrupted,
        }
    }

    // How it ends with a frame of an end that is read as an abort.
    fn abort_ending(&self, by: Side, code: AbortCode, frame: &Frame) -> Ending
        ensures { result ≡ abort_ending by (not_followed_by by self.now frame.now.bytes) code }
    {
        match self.not_followed_by(by, frame) {
            Some(next) => Ending::NotFollowed { next },
            None => Ending::Aborted { by, code },
        }
    }

    // Whether an initiate request was heard, after a frame of an end that is read as an abort: what
    // comes after a segment of another transfer is of one that began before the recording.
    fn stays_heard(&self, heard: bool, side: Side, frame: &Frame) -> bool
        ensures { result ≡ (heard && not (may_be_segment side self.now frame.now.bytes)) }
    {
        heard && !self.may_be_segment(side, frame)
    }

    // A frame that is neither an initiate request nor an abort.
    fn take_reading(&mut self, reading: &Reading, frame: &Frame) -> What
        requires { IsReading reading.now }
        ensures transfer { self.new ≡ after self.old (turn_of self.old reading.now frame.now.bytes) }
        ensures what { result ≡ (turn_of self.old reading.now frame.now.bytes).what }
    {
        match reading {
            Reading::Segment(segment) => self.take_block_segment(segment),
            Reading::Request(request) => self.take_request(request, frame),
            Reading::Response(response) => self.take_response(response, frame),
            _ => self.unexpected(),
        }
    }

    // Counts one more frame, up to 2^64 - 1.
    fn count_frame(&mut self)
        ensures { self.new ≡ one_more self.old }
    {
        self.frames = self.frames.saturating_add(1);
    }

    /// Notes who sent the newest frame, and when; a frame of another transfer doesn't count.
    pub(crate) fn note_frame(&mut self, what: What, micros: u64, side: Side)
        ensures { self.new ≡ with_frame what self.old micros side }
    {
        match what {
            What::Overtaken => {}
            What::Unexpected => {
                self.went_on = went_on_with(side, self.stage, self.went_on);
                self.count_frame();
                self.newest = micros;
                self.by = side;
            }
            _ => {
                self.count_frame();
                self.newest = micros;
                self.by = side;
            }
        }
    }
}

impl Channel {
    /// Before the first frame of the recording.
    pub fn new() -> Channel
        ensures { result ≡ nothing_heard }
    {
        Channel {
            heard: false,
            transfer: None,
        }
    }

    // Whether a frame that looks like an initiate request is the next segment of a sub-block.
    fn is_next_segment(&self, frame: &Frame) -> bool
        ensures { result ≡ is_next_segment self.now.transfer frame.now.bytes }
    {
        match &self.transfer {
            Some(transfer) => transfer.segment_follows(frame),
            None => false,
        }
    }

    // What a request begins. Where it may be a segment, the client is one that went on.
    fn begun_after(&self, initiate: &Initiate, micros: u64, frame: &Frame) -> Transfer
        ensures { result ≡ begun_after self.now.transfer initiate.now micros frame.now.bytes }
    {
        let mut transfer = Transfer::begin(initiate, micros, frame);
        transfer.went_on = self.is_next_segment(frame);
        transfer
    }

    // The open transfer, as the client leaves it with a request.
    fn left(&self, micros: u64, frame: &Frame) -> Option<Ended>
        ensures { result ≡ left self.now.transfer micros frame.now.bytes }
    {
        match &self.transfer {
            Some(transfer) => Some(transfer.ended(micros, transfer.left_ending(frame))),
            None => None,
        }
    }

    // An initiate request.
    fn begin(&mut self, initiate: &Initiate, micros: u64, frame: &Frame) -> Heard
        ensures says { result ≡ (begins self.old.transfer initiate.now micros frame.now.bytes).says }
        ensures next { self.new ≡ (begins self.old.transfer initiate.now micros frame.now.bytes).next }
    {
        let ended = self.left(micros, frame);
        let begun = self.begun_after(initiate, micros, frame);
        self.heard = true;
        self.transfer = Some(begun);
        Heard {
            what: What::Initiate,
            of: None,
            ended,
        }
    }

    // The open transfer's entry, for a frame without a key of its own.
    fn key_for(&self, reading: &Reading) -> Option<Key>
        ensures { result ≡ key_for self.now.transfer reading.now }
    {
        match &self.transfer {
            Some(transfer) if !reading.has_key() => Some(transfer.key),
            _ => None,
        }
    }

    // That entry, but where the client went on before the response.
    fn unless_lost(&self, of: Option<Key>) -> Option<Key>
        ensures { result ≡ unless_lost self.now.transfer of }
    {
        match &self.transfer {
            Some(transfer) if transfer.is_lost() => None,
            _ => of,
        }
    }

    // A frame without an open transfer.
    fn stray(&self) -> Heard
        ensures { result ≡ (passes self.now.heard).says }
    {
        let what = if self.heard {
            What::Stray
        } else {
            What::BegunBefore
        };
        Heard {
            what,
            of: None,
            ended: None,
        }
    }

    /// The open transfer ends.
    pub(crate) fn close(&mut self, micros: u64, ending: Ending) -> Option<Ended>
        ensures ended { result ≡ ends_as self.old.transfer micros ending }
        ensures next { self.new ≡ after_boot self.old }
    {
        let ended = match &self.transfer {
            Some(transfer) => Some(transfer.ended(micros, ending)),
            None => None,
        };
        self.transfer = None;
        ended
    }

    // How the open transfer ends with a boot-up of the server.
    fn boot_ending(&self) -> Ending
        ensures { result ≡ boot_ending self.now.transfer }
    {
        match &self.transfer {
            Some(transfer) if transfer.is_lost() => Ending::NotFollowed { next: None },
            _ => Ending::Interrupted,
        }
    }

    // A frame that goes on with the open transfer.
    fn go_on(&mut self, reading: &Reading, micros: u64, side: Side, frame: &Frame) -> Heard
        requires reading { IsReading reading.now }
        requires transfer { IsSome self.old.transfer }
        ensures says { IfSome self.old.transfer (λ before. result
            ≡ (turns self.old.heard before (turn_of before reading.now frame.now.bytes) micros side).says) }
        ensures next { IfSome self.old.transfer (λ before. self.new
            ≡ (turns self.old.heard before (turn_of before reading.now frame.now.bytes) micros side).next) }
    {
        let Some(transfer) = &mut self.transfer else {
            unreachable!();
        };
        let what = transfer.take_reading(reading, frame);
        match transfer.stage.confirmed() {
            Some(crc) => {
                let ending = transfer.verdict(crc);
                transfer.count_frame();
                let ended = self.close(micros, ending);
                Heard {
                    what,
                    of: None,
                    ended,
                }
            }
            None => {
                transfer.note_frame(what, micros, side);
                Heard {
                    what,
                    of: None,
                    ended: None,
                }
            }
        }
    }

    // What a frame is read as.
    fn follow(&mut self, reading: &Reading, micros: u64, side: Side, frame: &Frame) -> Heard
        requires { IsReading reading.now }
        ensures says { result ≡ (followed_by self.old.heard self.old.transfer reading.now micros side
            frame.now.bytes).says }
        ensures next { self.new ≡ (followed_by self.old.heard self.old.transfer reading.now micros
            side frame.now.bytes).next }
    {
        if let Reading::Begin(initiate) = reading {
            return self.begin(initiate, micros, frame);
        }
        let Some(transfer) = &mut self.transfer else {
            return self.stray();
        };
        match reading {
            Reading::Abort(code) => {
                transfer.count_frame();
                let ending = transfer.abort_ending(side, *code, frame);
                let ended = Ended {
                    fault: transfer.fault_with(ending),
                    ..transfer.ended(micros, ending)
                };
                self.heard = transfer.stays_heard(self.heard, side, frame);
                self.transfer = None;
                Heard {
                    what: What::Part,
                    of: None,
                    ended: Some(ended),
                }
            }
            _ => self.go_on(reading, micros, side, frame),
        }
    }

    /// Takes a frame of the channel, with its stamp in microseconds and the end that sent it.
    /// Returns what it is, and the transfer that ended with it: the frame is its last one, or
    /// begins another transfer.
    pub fn take(&mut self, micros: u64, side: Side, frame: &Frame) -> Heard
        ensures heard { result ≡ (followed self.old micros side frame.now.bytes).says }
        ensures next { self.new ≡ (followed self.old micros side frame.now.bytes).next }
        // Holds after every log of the channel.
        ensures said { (log : List Event) → self.old ≡ following_after log →
            result ≡ said log micros side frame.now.bytes }
        ensures stands { (log : List Event) → self.old ≡ following_after log →
            self.new ≡ following_after (Framed micros side frame.now.bytes ∷ log) }
    {
        let reading = reading_of(&self.transfer, side, frame);
        let of = self.key_for(&reading);
        let heard = self.follow(&reading, micros, side, frame);
        Heard {
            what: heard.what,
            of: self.unless_lost(of),
            ended: heard.ended,
        }
    }

    /// The server booted up, at this stamp: an open transfer is interrupted.
    pub fn boot_up(&mut self, micros: u64) -> Option<Ended>
        ensures ended { result ≡ broken_off self.old.transfer micros }
        ensures next { self.new ≡ after_boot self.old }
        ensures stands { (log : List Event) → self.old ≡ following_after log →
            self.new ≡ following_after (BootedUp micros ∷ log) }
    {
        let ending = self.boot_ending();
        self.close(micros, ending)
    }

    /// The transfer that is open where the recording ends, as unfinished; `micros` is the stamp of
    /// the recording's last frame. `None` too for one that can't be followed.
    pub fn unfinished(&self, micros: u64) -> Option<Ended>
        ensures { result ≡ closed self.now.transfer micros Unfinished }
    {
        match &self.transfer {
            Some(transfer) if !transfer.is_lost() => {
                Some(transfer.ended(micros, Ending::Unfinished))
            }
            _ => None,
        }
    }
}
