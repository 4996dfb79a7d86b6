//! The default SDO channel of a device: its requests and answers (CiA 301, 7.2.4).

ghost use Rattle.std.specs.Prelude.{◌≡◌, ◌<◌, length, None};
ghost use Rattle.conode_explain_transfers.specs.Followed.{followed};
ghost use Rattle.conode_compare_transfers.specs.Dialogues.{
  answers_in_turn,
  asked_after,
  asks_again,
  asks_to_write,
  awaited_for,
  dialogue_heard,
  doubts_request,
  entry_after,
  comes_in_turn,
  ends_none_undone,
  ends_upload,
  given_up,
  interrupted,
  is_certain,
  is_in_turn,
  is_late_answer,
  is_left,
  is_of_other,
  is_part,
  is_slow_answer,
  is_timed,
  is_unasked,
  leaves_slow,
  may_switch,
  misses_request,
  names_other,
  newest_heard,
  nothing_asked,
  owes,
  owes_nothing,
  exchange_in,
  has_key,
  requested_after,
  word_written,
};

use crate::breach::{Breach, breach_at, byte_at, key_in};
use crate::doubts::{continues, doubted_after, is_initiate, leaves_block, sub_block_after};
use crate::left::Left;
use crate::newest::{Newest, newest_with};
use crate::times::is_past;
use co_frame::Frame;
use co_profile::{RESTORE_PARAMETERS, STORE_PARAMETERS};
use co_value::{Key, unsigned_of};
use conode_explain_transfers::{Channel, Ended, Ending, Heard, Side, What};

/// An initiate request that is not answered yet.
#[derive(Clone, Copy)]
pub struct Asked {
    /// Its multiplexer.
    pub key: Key,
    /// Its stamp.
    pub micros: u64,
    /// Whether it asks to write.
    pub writes: bool,
    /// Whether it is one of a block upload with a protocol switch threshold (pst) other than 0: a
    /// short value may be uploaded by another protocol then.
    pub switches: bool,
}

/// What a recording shows of a device's default SDO channel.
#[derive(Drop)]
pub struct Dialogue {
    /// Its transfers.
    pub channel: Channel,
    /// The initiate request, where it is the newest frame.
    pub asked: Option<Asked>,
    /// The entry of the newest initiate request.
    pub entry: Option<Key>,
    /// The stamp of the newest frame by which an earlier request may still be answered.
    pub doubted: Option<u64>,
    /// The requests that may take long and were left before their answer.
    pub slow: Left,
    /// Whether a sub-block of a block download may be open that isn't followed: the server takes a
    /// request as one of its segments then.
    pub sub_block: bool,
    /// Whose frame the newest one of the open transfer is, where each of its frames came in its
    /// turn.
    pub newest: Option<Newest>,
    /// The stamp of the client's newest frame.
    pub requested: u64,
}

/// What a frame of the channel is in it.
#[derive(Drop)]
pub struct Exchange {
    /// What it is in the transfers.
    pub heard: Heard,
    /// The initiate request right before it.
    pub asked: Option<Asked>,
    /// Whether the device owes an answer to the request before it: no earlier one could still be
    /// answered when it came.
    pub owed: bool,
    /// Whether no earlier request can be answered here.
    pub certain: bool,
    /// The difference in the open transfer.
    pub breach: Option<Breach>,
    /// How many microseconds the device has awaited the client's next frame, since the last one:
    /// where it has answered that, and each frame of the open transfer came in its turn.
    pub awaited: Option<u64>,
}

/// Whether an answer has its time: storing, restoring, and what a program is loaded by (1F00h to
/// 1FFFh, CiA 302) may take long.
pub fn is_timed(key: Key) -> bool
    ensures { result ≡ is_timed key }
{
    key.index != STORE_PARAMETERS
        && key.index != RESTORE_PARAMETERS
        && !(0x1F00 <= key.index && key.index <= 0x1FFF)
}

// whether the multiplexer of a frame isn't that of the transfer that it ends
fn names_other(ended: &Option<Ended>, frame: &Frame) -> bool
    ensures { result ≡ names_other ended.now frame.now }
{
    match ended {
        Some(ended) => key_in(frame) != ended.key,
        None => false,
    }
}

// Whether a transfer was left, and not ended by the device. An abort of another entry answers an
// earlier request.
fn is_left(other: bool, ending: Ending) -> bool
    ensures { result ≡ is_left other ending }
{
    match ending {
        Ending::Unanswered
        | Ending::Repeated
        | Ending::Interrupted
        | Ending::NotFollowed { next: _ }
        | Ending::Aborted {
            by: Side::Client,
            code: _,
        } => true,
        Ending::Aborted {
            by: Side::Server,
            code: _,
        } => other,
        _ => false,
    }
}

// whether nothing is owed but what the device sends by itself
fn owes_nothing(newest: Option<Newest>) -> bool
    ensures { result ≡ owes_nothing newest }
{
    matches!(
        newest,
        Some(Newest::Answer | Newest::Data | Newest::LastData(_) | Newest::LaterData)
    )
}

// how long before a frame the device has awaited the client's next one, where it has answered all
fn awaited_for(newest: Option<Newest>, requested: u64, micros: u64) -> Option<u64>
    ensures { result ≡ awaited_for newest requested micros }
{
    if owes_nothing(newest) {
        Some(micros.saturating_sub(requested))
    } else {
        None
    }
}

// the stamp of the client's newest frame after a frame by an end
fn requested_after(side: Side, micros: u64, requested: u64) -> u64
    ensures { result ≡ requested_after side micros requested }
{
    match side {
        Side::Client => micros,
        Side::Server => requested,
    }
}

// whether a transfer of an entry that may take long was left before its answer
fn leaves_slow(other: bool, newest: Option<Newest>, ended: &Option<Ended>) -> bool
    ensures { result ≡ leaves_slow other newest ended.now }
{
    match ended {
        Some(ended) => {
            !owes_nothing(newest) && is_left(other, ended.ending) && !is_timed(ended.key)
        }
        None => false,
    }
}

// whether a frame of the device has a multiplexer: a response to initiate, or an abort
fn has_key(first: u8) -> bool
    ensures { result ≡ has_key first }
{
    (0x40 <= first && first < 0xA0)
        || first == 0xA0
        || first == 0xA4
        || first == 0xC0
        || first == 0xC2
        || first == 0xC4
        || first == 0xC6
}

// whether a frame is one of these, of an entry that may take long
fn is_slow_answer(frame: &Frame) -> bool
    ensures { result ≡ is_slow_answer frame.now }
{
    has_key(byte_at(frame, 0)) && !is_timed(key_in(frame))
}

fn is_part(side: Side, what: What) -> bool
    ensures { result ≡ is_part side what }
{
    matches!((side, what), (Side::Server, What::Part))
}

// whether a frame of the device isn't of the open transfer
fn is_of_other(heard: &Heard, frame: &Frame) -> bool
    ensures { result ≡ is_of_other heard.now.what heard.now.ended frame.now }
{
    match heard.what {
        What::Part => names_other(&heard.ended, frame),
        What::Segment { number: _ }
        | What::OutOfSequence {
            number: _,
            awaited: _,
        } => false,
        _ => true,
    }
}

// whether a frame answers an earlier request, which may take long
fn is_late_answer(side: Side, heard: &Heard, frame: &Frame) -> bool
    ensures { result ≡ is_late_answer side heard.now frame.now }
{
    match side {
        Side::Server => is_slow_answer(frame) && is_of_other(heard, frame),
        Side::Client => false,
    }
}

// whether no transfer is open for a frame of the device, which isn't an abort
fn is_unasked(side: Side, what: What, frame: &Frame) -> bool
    ensures { result ≡ is_unasked side what frame.now }
{
    matches!((side, what), (Side::Server, What::Stray)) && byte_at(frame, 0) / 32 != 4
}

/// Whether an initiate request is one of a download, by its command specifier.
pub fn asks_to_write(frame: &Frame) -> bool
    ensures { result ≡ asks_to_write frame.now }
{
    let specifier = byte_at(frame, 0) / 32;
    specifier == 1 || specifier == 6
}

/// The number that an initiate request of a download has in its last four bytes, where it has all
/// four (expedited, n = 0).
pub fn word_written(frame: &Frame) -> Option<u64>
    ensures { result ≡ word_written frame.now }
{
    if byte_at(frame, 0) / 2 != 0x11 {
        return None;
    }
    let bytes = [
        byte_at(frame, 4),
        byte_at(frame, 5),
        byte_at(frame, 6),
        byte_at(frame, 7),
    ];
    Some(unsigned_of(&bytes))
}

// whether an initiate request is one of a block upload that may be answered by another protocol:
// ccs = 5, and a threshold
fn may_switch(frame: &Frame) -> bool
    ensures { result ≡ may_switch frame.now }
{
    byte_at(frame, 0) / 32 == 5 && byte_at(frame, 5) > 0
}

// the initiate request that is not answered after a frame
fn asked_after(what: What, micros: u64, frame: &Frame) -> Option<Asked>
    ensures { result ≡ asked_after what micros frame.now }
{
    match what {
        What::Initiate => Some(Asked {
            key: key_in(frame),
            micros,
            writes: asks_to_write(frame),
            switches: may_switch(frame),
        }),
        _ => None,
    }
}

// the entry of the newest initiate request after a frame
fn entry_after(what: What, frame: &Frame, entry: Option<Key>) -> Option<Key>
    ensures { result ≡ entry_after what frame.now entry }
{
    match what {
        What::Initiate => Some(key_in(frame)),
        _ => entry,
    }
}

// whose frame the newest one is; none of a transfer that isn't judged, since its request came while
// an earlier one could be answered
fn newest_heard(
    certain: bool,
    side: Side,
    what: What,
    frame: &Frame,
    newest: Option<Newest>,
) -> Option<Newest>
    ensures { result ≡ newest_heard certain side what frame.now newest }
{
    if is_initiate(what) && !certain {
        None
    } else {
        newest_with(side, what, frame, newest)
    }
}

// whether a frame ends no transfer, or one that is done
fn ends_none_undone(ended: &Option<Ended>) -> bool
    ensures { result ≡ ends_none_undone ended.now }
{
    match ended {
        Some(ended) => matches!(ended.ending, Ending::Done { crc: _ }),
        None => true,
    }
}

// whether a frame of the device is its end of a block upload (scs = 6), which counts with the
// client's confirmation
fn ends_upload(what: What, frame: &Frame) -> bool
    ensures { result ≡ ends_upload what frame.now }
{
    matches!(what, What::Part) && byte_at(frame, 0) / 32 == 6
}

/// Whether a frame of the device goes on with the open transfer or is its end, as each of its frames
/// in its turn. `newest`: whose frame the newest one of the transfer was before it.
#[tactic(auto, unfolding(crate::specs::Dialogues::comes_in_turn))]
pub fn comes_in_turn(newest: Option<Newest>, heard: &Heard, frame: &Frame) -> bool
    ensures { result ≡ comes_in_turn newest heard.now frame.now }
{
    continues(heard.what)
        && (ends_none_undone(&heard.ended) && !ends_upload(heard.what, frame))
        && newest_with(Side::Server, heard.what, frame, newest).is_some()
}

// whether no earlier request can be answered at a stamp
#[tactic(auto, unfolding(crate::specs::Dialogues::is_certain))]
fn is_certain(answer: u32, started: u64, slow: Left, doubted: Option<u64>, micros: u64) -> bool
    ensures { result ≡ is_certain answer started slow doubted micros }
{
    if slow.is_awaited(micros) || !is_past(started, answer, micros) {
        return false;
    }
    match doubted {
        Some(doubted) => is_past(doubted, answer, micros),
        None => true,
    }
}

// Whether a frame answers a request that came when none but those that may take long could be
// answered. A server takes requests in turn, so those are answered no more. It may refuse one
// before its turn.
fn answers_in_turn(
    answer: u32,
    started: u64,
    doubted: Option<u64>,
    frame: &Frame,
    asked: Asked,
) -> bool
    ensures { result ≡ answers_in_turn answer started doubted frame.now asked }
{
    is_timed(asked.key)
        && key_in(frame) == asked.key
        && byte_at(frame, 0) / 32 != 4
        && is_certain(answer, started, Left::new(), doubted, asked.micros)
}

impl Dialogue {
    /// Nothing was heard.
    pub fn new() -> Dialogue
        ensures { result ≡ nothing_asked }
    {
        Dialogue {
            channel: Channel::new(),
            asked: None,
            entry: None,
            doubted: None,
            slow: Left::new(),
            sub_block: false,
            newest: None,
            requested: 0,
        }
    }

    /// Whether no earlier request can be answered any more: the recording shows all that came
    /// within the time that an answer may take, nothing of it leaves a doubt, and no answer that
    /// may take long is awaited.
    pub fn is_certain(&self, answer: u32, started: u64, micros: u64) -> bool
        ensures { result ≡ is_certain answer started self.now.slow self.now.doubted micros }
    {
        is_certain(answer, started, self.slow, self.doubted, micros)
    }

    // Whether a frame answers, in its turn, a request that came when none but those that may take
    // long could be answered.
    fn is_in_turn(&self, answer: u32, started: u64, side: Side, what: What, frame: &Frame) -> bool
        ensures { result ≡ is_in_turn answer started self.now side what frame.now }
    {
        match self.asked {
            Some(asked) => {
                is_part(side, what) && answers_in_turn(answer, started, self.doubted, frame, asked)
            }
            None => false,
        }
    }

    // Whether a request is of the same entry as the one before, while an earlier request may still be
    // answered: the answer to that looks like its own, which comes later.
    fn asks_again(&self, answer: u32, micros: u64, frame: &Frame) -> bool
        ensures { result ≡ asks_again answer self.now micros frame.now }
    {
        match (self.entry, self.doubted) {
            (Some(entry), Some(doubted)) => {
                key_in(frame) == entry && !is_past(doubted, answer, micros)
            }
            _ => false,
        }
    }

    // Whether a request is in doubt: it may be a segment, which isn't answered, or it asks again.
    fn doubts_request(&self, answer: u32, micros: u64, frame: &Frame) -> bool
        ensures { result ≡ doubts_request answer self.now micros frame.now }
    {
        self.sub_block || self.asks_again(answer, micros, frame)
    }

    // Whether the request of an answer may be missing in the recording: the client's newest frame is
    // longer ago than an answer may take.
    fn misses_request(
        &self,
        answer: u32,
        micros: u64,
        side: Side,
        what: What,
        frame: &Frame,
    ) -> bool
        ensures { result ≡ misses_request answer self.now micros side what frame.now }
    {
        is_unasked(side, what, frame) && is_past(self.requested, answer, micros)
    }

    /// Whether no request before the one that is asked could still be answered when that came: a
    /// server that still awaits the segments of a block download takes another request as one of
    /// them.
    fn owes(&self, answer: u32, started: u64) -> bool
        ensures { result ≡ owes answer started self.now }
    {
        match self.asked {
            Some(asked) => self.is_certain(answer, started, asked.micros),
            None => false,
        }
    }

    /// Takes a frame of the channel by an end. `answer`: how long an answer may take, in ms;
    /// `started`: the stamp at which the recording began.
    #[tactic(auto, unfolding(crate::specs::Dialogues::exchange_in, crate::specs::Dialogues::dialogue_heard))]
    pub fn hear(
        &mut self,
        answer: u32,
        started: u64,
        micros: u64,
        side: Side,
        frame: &Frame,
    ) -> Exchange
        ensures exchange { result ≡ exchange_in answer started self.old micros side frame.now }
        ensures next { self.new ≡ dialogue_heard answer started self.old micros side frame.now }
    {
        let owed = self.owes(answer, started);
        let known = self.is_certain(answer, started, micros);
        let asked = self.asked;
        let awaited = awaited_for(self.newest, self.requested, micros);
        let quiet = owes_nothing(self.newest);
        let doubts = self.doubts_request(answer, micros, frame);
        let heard = self.channel.take(micros, side, frame);
        let breach = breach_at(self.newest, side, &heard, frame);
        let late = is_late_answer(side, &heard, frame);
        let missing = self.misses_request(answer, micros, side, heard.what, frame);
        let turns = self.is_in_turn(answer, started, side, heard.what, frame);
        let other = names_other(&heard.ended, frame);
        let leaves = leaves_slow(other, self.newest, &heard.ended);
        self.slow = self.slow.after_answer(late, turns).after(leaves, micros);
        self.asked = asked_after(heard.what, micros, frame);
        self.entry = entry_after(heard.what, frame, self.entry);
        self.doubted = doubted_after(
            owed,
            quiet,
            doubts,
            side,
            &heard,
            frame,
            self.doubted,
            micros,
        );
        let left = leaves_block(other, &heard.ended);
        self.sub_block = sub_block_after(side, left, heard.what, byte_at(frame, 0), self.sub_block);
        let judged = self.is_certain(answer, started, micros);
        self.newest = newest_heard(judged, side, heard.what, frame, self.newest);
        self.requested = requested_after(side, micros, self.requested);
        Exchange {
            heard,
            asked,
            owed,
            certain: known && !(late || missing),
            breach,
            awaited,
        }
    }

    /// The device is reset, booted up, or an error frame came: nothing is open any more. Where
    /// something was, it may be answered all the same.
    pub fn interrupt(&mut self, micros: u64)
        ensures { self.new ≡ interrupted self.old micros }
    {
        let ended = self.channel.boot_up(micros);
        if ended.is_some() {
            self.doubted = Some(micros);
        }
        let leaves = leaves_slow(false, self.newest, &ended);
        self.slow = self.slow.after(leaves, micros);
        self.sub_block = self.sub_block || leaves_block(false, &ended);
        self.asked = None;
        self.newest = None;
    }

    /// The request wasn't answered in time, which was said: its transfer isn't followed any more. It may
    /// be answered later.
    pub fn give_up(&mut self, micros: u64)
        ensures { self.new ≡ given_up self.old micros }
    {
        self.interrupt(micros);
        self.doubted = Some(micros);
    }
}
