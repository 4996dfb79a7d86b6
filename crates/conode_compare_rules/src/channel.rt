//! The frames of a device's SDO channel (CiA 301, 7.2.4), and what they show of it.

ghost use Rattle.std.specs.Prelude.{◌≡◌, ◌||◌, if◌then◌else◌, true, map};
ghost use Rattle.std.specs.List.{AllPairs};
ghost use Rattle.co_sheet.specs.SheetViews.{row_view};
ghost use Rattle.co_value.specs.Keys.{is_key_before};
ghost use Rattle.conode_explain_transfers.specs.declared.kinds.Side.TheVariants.{Client};
ghost use Rattle.conode_compare_nmt.specs.States.{nothing_commanded};
ghost use Rattle.conode_compare_rules.specs.NmtFrames.{late_by};
ghost use Rattle.conode_compare_rules.specs.Channels.{
  after_answer,
  after_sdo,
  answer_findings,
  channel_heard,
  entries_heard,
  exchange_at,
  exchange_noted,
  is_confirmation,
  is_judged,
  is_of_parameter,
  is_other_answer,
  is_wrong,
  answer_noted,
  asked_then,
  asks_for_profile,
  is_doubtful,
  leaves_unknown,
  left_open,
  may_miss_end,
  pdos_beside,
  pdos_by,
  pdos_heard,
  pdos_requested,
  request_findings,
  shown_beside,
};

use crate::answers::{answer_finding, confirmed_finding, held_finding, is_abort, stopped_finding};
use crate::followed::note_heard;
use crate::progress::Progress;
use crate::verdict::Findings;
use co_frame::Frame;
use co_sheet::EntryRow;
use co_value::Key;
use conode_compare_nmt::{
    Entries, Finding, Nmt, Subject, is_channel, newest_asked, period_asked_by, shares_id,
};
use conode_compare_pdos::Pdos;
use conode_compare_transfers::{
    Asked, Dialogue, Exchange, Newest, asks_to_write, byte_at, comes_in_turn, is_past, key_in,
};
use conode_explain_transfers::{Direction, Ended, Side, What};

// the entries after a frame of the SDO channel; `other`: a transfer that ended shows nothing, since
// the client of another channel has sent, or two downloads may be in flight
fn entries_heard(
    entries: Entries,
    other: bool,
    ended: &Option<Ended>,
    asked: Option<Asked>,
) -> Entries
    ensures { result ≡ entries_heard entries (shown_beside other ended.now) asked }
{
    let entries = match ended {
        Some(ended) if !other => entries.ended(ended),
        _ => entries,
    };
    match asked {
        Some(asked) if asked.writes => entries.asked_to_write(asked.key),
        _ => entries,
    }
}

// the TPDOs after a request to write an entry
fn request_pdos(pdos: &mut Pdos, key: Key, micros: u64)
    ensures { pdos.new ≡ pdos_requested pdos.old key micros }
{
    if is_channel(key) {
        *pdos = Pdos::unknown();
    } else {
        pdos.request(key, micros);
    }
}

// whether an earlier request may still be answered
fn is_doubtful(answer: u32, dialogue: &Dialogue, micros: u64) -> bool
    ensures { result ≡ is_doubtful answer dialogue.now micros }
{
    let doubted = match dialogue.doubted {
        Some(doubted) => !is_past(doubted, answer, micros),
        None => false,
    };
    dialogue.slow.is_awaited(micros) || doubted
}

// whether a download that ended is one of two that may both be in flight: what its entry has stays
// unknown
fn leaves_unknown(doubtful: bool, ended: &Option<Ended>) -> bool
    ensures { result ≡ leaves_unknown doubtful ended.now }
{
    match ended {
        Some(ended) => doubtful && matches!(ended.direction, Direction::Download),
        None => false,
    }
}

// whether a transfer that ended is of a parameter of a TPDO
fn is_of_parameter(ended: &Option<Ended>) -> bool
    ensures { result ≡ is_of_parameter ended.now }
{
    match ended {
        Some(ended) => 0x1800 <= ended.key.index && ended.key.index <= 0x1803,
        None => false,
    }
}

// whether a transfer that ended shows nothing
fn hides_end(other_client: bool, unknown: bool) -> bool
    ensures { result ≡ (other_client || unknown) }
{
    other_client || unknown
}

// the TPDOs after a transfer that ended, where that leaves its entry unknown
fn leave_pdos(pdos: &mut Pdos, unknown: bool, ended: &Option<Ended>)
    ensures { pdos.new ≡ pdos_beside unknown ended.now pdos.old }
{
    if unknown && is_of_parameter(ended) {
        pdos.interrupt();
    }
}

// the TPDOs after a frame of the SDO channel; `other` as in `entries_heard`
fn hear_pdos(pdos: &mut Pdos, other: bool, ended: &Option<Ended>, asked: Option<Asked>, micros: u64)
    ensures { pdos.new ≡ pdos_heard pdos.old (shown_beside other ended.now) asked micros }
{
    match ended {
        Some(ended) if !other => pdos.transfer(ended, micros),
        _ => {}
    }
    match asked {
        Some(asked) if asked.writes => request_pdos(pdos, asked.key, micros),
        _ => {}
    }
}

// the TPDOs by what a client's frame asks to write, whatever it is in the transfers of the channel
fn hear_pdos_by(pdos: &mut Pdos, side: Side, frame: &Frame, micros: u64)
    ensures { pdos.new ≡ pdos_by side frame.now pdos.old micros }
{
    match side {
        Side::Client if frame.bytes().len() == 8 && asks_to_write(frame) => {
            request_pdos(pdos, key_in(frame), micros)
        }
        _ => {}
    }
}

// whether a client's frame asks to write an entry of the communication profile
fn asks_for_profile(side: Side, frame: &Frame) -> bool
    ensures { result ≡ asks_for_profile side frame.now }
{
    match side {
        Side::Client if asks_to_write(frame) => {
            let index = key_in(frame).index;
            0x1000 <= index && index < 0x2000
        }
        _ => false,
    }
}

// when a client asked so last
fn asked_then(asks: bool, before: Option<u64>, micros: u64) -> Option<u64>
    ensures { result ≡ asked_then asks before micros }
{
    if asks { Some(micros) } else { before }
}

// Whether a frame of the device is judged: it follows an initiate request, and answers that; or it
// goes on with the open transfer, or is its end, as each of its frames in its turn. `newest`: whose
// frame the one before it was.
fn is_judged(newest: Option<Newest>, exchange: &Exchange, frame: &Frame) -> bool
    ensures { result ≡ is_judged newest exchange.now frame.now }
{
    let answers = exchange.asked.is_some() && matches!(exchange.heard.what, What::Part);
    exchange.certain && (comes_in_turn(newest, &exchange.heard, frame) || answers)
}

// whether a frame is the client's confirmation of a block upload
fn is_confirmation(frame: &Frame) -> bool
    ensures { result ≡ is_confirmation frame.now }
{
    byte_at(frame, 0) == 0xA1
}

// whether a client's frame ends a transfer, and the device may not take it, since it may be stopped
fn may_miss_end(nmt: &Nmt, micros: u64, frame: &Frame) -> bool
    ensures { result ≡ may_miss_end nmt.now micros frame.now }
{
    (is_abort(frame) || is_confirmation(frame)) && nmt.may_be_stopped_at(micros)
}

// the dialogue after a client's frame that the device may not have taken: the transfer may go on
fn leave_open(dialogue: &mut Dialogue, side: Side, misses: bool)
    ensures { dialogue.new ≡ left_open side misses dialogue.old }
{
    match side {
        Side::Client => dialogue.sub_block = misses || dialogue.sub_block,
        Side::Server => {}
    }
}

// whether a frame of the device is a wrong answer to a request, which is said: of another entry, or
// none that its protocol has
fn is_wrong(side: Side, exchange: &Exchange) -> bool
    ensures { result ≡ is_wrong side exchange.now }
{
    match side {
        Side::Client => false,
        Side::Server => {
            exchange.certain
                && exchange.owed
                && matches!(exchange.heard.what, What::Overtaken | What::Unexpected)
        }
    }
}

impl Progress {
    // a frame of the SDO channel is heard
    #[tactic(auto, unfolding(crate::specs::Channels::exchange_at, crate::specs::Channels::channel_heard))]
    fn hear(&mut self, subject: &Subject, micros: u64, side: Side, frame: &Frame) -> Exchange
        ensures exchange { result ≡ exchange_at subject.now self.old micros side frame.now }
        ensures progress { self.new ≡ channel_heard subject.now self.old micros side frame.now }
        ensures written { self.new.written ≡ self.old.written }
    {
        let doubtful = is_doubtful(subject.limits.answer, &self.dialogue, micros);
        let misses = may_miss_end(&self.nmt, micros, frame);
        let period = self.entries.period;
        let period_then = self.period_then();
        let exchange = self
            .dialogue
            .hear(subject.limits.answer, self.started, micros, side, frame);
        let unknown = leaves_unknown(doubtful, &exchange.heard.ended);
        let other = hides_end(self.other_client, unknown);
        note_heard(
            &mut self.nmt,
            &subject.limits,
            self.started,
            micros,
            side,
            &exchange,
        );
        let entries = entries_heard(
            self.entries,
            other,
            &exchange.heard.ended,
            self.dialogue.asked,
        );
        let entries = entries.asked_by(side, frame);
        let shares = shares_id(subject.node, side, frame);
        let entries = entries.with_sharing(shares);
        self.entries = entries;
        let heartbeats = self.heartbeats.heard(&exchange.heard.ended, micros);
        let longest = period_asked_by(side, frame, period_then);
        let heartbeats = heartbeats.with_former(longest, period, entries.period, micros);
        let newest = newest_asked(side, frame, self.heartbeats.asked);
        self.heartbeats = heartbeats.with_asked(newest);
        leave_pdos(&mut self.pdos, unknown, &exchange.heard.ended);
        hear_pdos(
            &mut self.pdos,
            other,
            &exchange.heard.ended,
            self.dialogue.asked,
            micros,
        );
        hear_pdos_by(&mut self.pdos, side, frame, micros);
        let asks = asks_for_profile(side, frame);
        self.asked_at = asked_then(asks, self.asked_at, micros);
        leave_open(&mut self.dialogue, side, misses);
        exchange
    }

    // what a frame is that was heard, what was written to the entries that are held, and whether it is a
    // wrong answer
    #[tactic(auto, unfolding(crate::specs::Channels::exchange_noted))]
    fn note_exchange(&mut self, subject: &Subject, side: Side, exchange: Exchange)
        ensures { self.new ≡ exchange_noted subject.now side self.old exchange }
    {
        self.wrong = is_wrong(side, &exchange);
        let (certain, asked) = (exchange.certain, self.dialogue.asked);
        self.written
            .hear(&subject.held, certain, &exchange.heard.ended, asked);
        self.exchange = Some(exchange);
    }

    // an answer comes, by which a heartbeat may be missing: the difference of that
    #[tactic(auto, unfolding(crate::specs::Channels::late_noted))]
    fn note_answer(&mut self, subject: &Subject, micros: u64) -> Option<Finding>
        ensures finding { result ≡ late_by subject.now self.old true micros }
        ensures progress { self.new ≡ answer_noted subject.now self.old micros }
    {
        let late = self.notice_late(subject, true, micros);
        self.nmt = self.nmt.after_other(&subject.limits, micros);
        late
    }

    // the state by which an answer is judged, once it is noted: none where a heartbeat was late
    fn answer_nmt(&self, overdue: bool) -> Nmt
        ensures { result ≡ (if overdue then nothing_commanded else self.now.nmt) }
    {
        if overdue { Nmt::new() } else { self.nmt }
    }

    /// An answer comes. Returns what is found at it; `rows` are the data sheet's entries, in increasing
    /// key.
    #[tactic(auto, unfolding(crate::specs::Channels::answer_findings))]
    pub(crate) fn take_answer(
        &mut self,
        subject: &Subject,
        rows: &[EntryRow<'_>],
        micros: u64,
        frame: &Frame,
    ) -> Findings
        requires { AllPairs (λ e f. is_key_before e.key f.key ≡ true) rows.now }
        ensures findings { result
            ≡ answer_findings subject.now (map row_view rows.now) self.old micros frame.now }
        ensures progress { self.new ≡ after_answer subject.now self.old micros frame.now }
    {
        let boot = self.nmt.boot_finding(&subject.limits, micros);
        let overdue = self.is_overdue(subject);
        let heartbeat = self.note_answer(subject, micros);
        let nmt = self.answer_nmt(overdue);
        let started = self.started;
        let newest = self.dialogue.newest;
        let exchange = self.hear(subject, micros, Side::Server, frame);
        let held = held_finding(subject, &self.written, &exchange);
        let difference = stopped_finding(&subject.limits, started, &nmt, &exchange).or(
            answer_finding(subject, rows, micros, &nmt, &exchange, frame).or(held),
        );
        let judged = is_judged(newest, &exchange, frame);
        self.note_exchange(subject, Side::Server, exchange);
        Findings::of(boot, heartbeat, None, difference, judged)
    }

    /// A request comes, or another frame of the client.
    #[tactic(auto, unfolding(crate::specs::Channels::request_findings))]
    pub(crate) fn take_request(
        &mut self,
        subject: &Subject,
        rows: &[EntryRow<'_>],
        micros: u64,
        frame: &Frame,
    ) -> Findings
        requires { AllPairs (λ e f. is_key_before e.key f.key ≡ true) rows.now }
        ensures findings { result
            ≡ request_findings subject.now (map row_view rows.now) self.old micros frame.now }
        ensures progress { self.new ≡ after_sdo subject.now self.old micros Client frame.now }
    {
        let written = self.written;
        let exchange = self.hear(subject, micros, Side::Client, frame);
        let finding = confirmed_finding(subject, rows, &written, &exchange, frame);
        self.note_exchange(subject, Side::Client, exchange);
        match finding {
            Some(finding) => Findings::of(None, None, None, Some(finding), false),
            None => Findings::none(),
        }
    }
}
