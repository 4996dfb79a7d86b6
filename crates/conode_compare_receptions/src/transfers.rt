//! What SDO shows of RPDOs and of what they write: requests to write, and the ends of transfers.

ghost use Rattle.std.specs.Prelude.{◌≡◌};
ghost use Rattle.conode_compare_receptions.specs.Receptions.{
  asks,
  closes,
  exchanged,
  exchanged_by,
  may_be_later,
  others_asked,
  others_ended,
  requests,
  rpdos_asked,
  rpdos_ended,
  with_asked,
  with_ended,
  with_settled,
  writes_asked,
  written_ended,
};

use crate::other_ids::OtherIds;
use crate::receptions::Receptions;
use co_frame::Frame;
use co_value::Key;
use conode_compare_nmt::Subject;
use conode_compare_pdos::Rpdos;
use conode_compare_rules::Progress;
use conode_compare_transfers::{Exchange, asks_to_write, is_past, is_timed, key_in};
use conode_compare_values::{RpdoWrites, Written};
use conode_explain_transfers::{Direction, Ended, Side, What};

// whether a client asks to write
fn asks(side: Side, frame: &Frame) -> bool
    ensures { result ≡ asks side frame.now }
{
    match side {
        Side::Client => asks_to_write(frame),
        Side::Server => false,
    }
}

// whether the device ends a download, and no earlier request can be answered
fn closes(side: Side, certain: bool, ended: &Option<Ended>) -> bool
    ensures { result ≡ closes side certain ended.now }
{
    match (side, ended) {
        (Side::Server, Some(ended)) => certain && matches!(ended.direction, Direction::Download),
        _ => false,
    }
}

// whether a client begins a transfer
fn requests(side: Side, what: What) -> bool
    ensures { result ≡ requests side what }
{
    matches!((side, what), (Side::Client, What::Initiate))
}

// whether a frame that may have been an RPDO may have been taken later than a download
fn may_be_later(tolerance: u32, touched: Option<u64>, begun: u64) -> bool
    ensures { result ≡ may_be_later tolerance touched begun }
{
    match touched {
        Some(touched) => !is_past(touched, tolerance, begun),
        None => false,
    }
}

// what is known of the entries once a transfer ended
fn written_ended(
    subject: &Subject,
    written: Written,
    touched: Option<u64>,
    ended: &Option<Ended>,
) -> Written
    ensures { result ≡ written_ended subject.now written touched ended.now }
{
    let mut written = written;
    match ended {
        Some(ended)
            if matches!(ended.direction, Direction::Download)
                && may_be_later(subject.limits.tolerance, touched, ended.begun) => {
            written.forget_mapped_at(&subject.held, ended.key);
        }
        _ => {}
    }
    written
}

// what is known of the RPDOs once a transfer ended
fn end_rpdos(rpdos: &mut Rpdos, certain: bool, ended: &Option<Ended>, micros: u64)
    ensures { rpdos.new ≡ rpdos_ended rpdos.old certain ended.now micros }
{
    match ended {
        Some(ended) if certain => rpdos.transfer(ended, micros),
        _ => {}
    }
}

// what is known of the other identifiers once a transfer ended
fn end_others(others: &mut OtherIds, certain: bool, ended: &Option<Ended>)
    ensures { others.new ≡ others_ended others.old certain ended.now }
{
    match ended {
        Some(ended) if certain => others.transfer(ended),
        _ => {}
    }
}

// what is known of them once a client asks to write
fn ask_others(others: &mut OtherIds, key: Key)
    ensures { others.new ≡ others_asked others.old key }
{
    if is_timed(key) {
        others.request(key);
    } else {
        *others = OtherIds::unknown();
    }
}

// what is known of the RPDOs once a client asks to write
fn ask_rpdos(rpdos: &mut Rpdos, key: Key, micros: u64)
    ensures { rpdos.new ≡ rpdos_asked rpdos.old key micros }
{
    if is_timed(key) {
        rpdos.request(key, micros);
    } else {
        *rpdos = Rpdos::unknown();
    }
}

// what is known of the entries once a client asks to write
fn ask_writes(subject: &Subject, writes: &mut RpdoWrites, key: Key)
    ensures { writes.new ≡ writes_asked subject.now writes.old key }
{
    if key.index < 0x2000 {
        writes.forget_values();
    } else {
        writes.forget(&subject.held, key);
    }
}

impl Receptions {
    // A client asks to write.
    fn take_asked(&mut self, subject: &Subject, frame: &Frame, micros: u64)
        ensures { self.new ≡ with_asked subject.now self.old frame.now micros }
    {
        let key = key_in(frame);
        ask_rpdos(&mut self.rpdos, key, micros);
        ask_others(&mut self.others, key);
        ask_writes(subject, &mut self.writes, key);
        self.writing = true;
    }

    // A transfer ended, or none did.
    fn take_ended(
        &mut self,
        subject: &Subject,
        progress: &Progress,
        side: Side,
        exchange: &Exchange,
        micros: u64,
    )
        ensures { self.new
            ≡ with_ended subject.now self.old progress.now side exchange.now micros }
    {
        let ended = &exchange.heard.ended;
        end_rpdos(&mut self.rpdos, exchange.certain, ended, micros);
        end_others(&mut self.others, exchange.certain, ended);
        self.writes.written = written_ended(subject, progress.written, self.touched, ended);
        self.writing = self.writing && !closes(side, exchange.certain, ended);
    }

    // What RPDOs brought is known, as far as the device was operational.
    fn settle(&mut self, subject: &Subject)
        ensures { self.new ≡ with_settled subject.now self.old }
    {
        self.writes
            .settle(&subject.held, subject.limits.tolerance, self.operational);
    }

    // A frame of the SDO channel came.
    #[tactic(auto, unfolding(crate::specs::Receptions::exchanged_by))]
    fn take_exchange(
        &mut self,
        subject: &Subject,
        progress: &Progress,
        micros: u64,
        side: Side,
        frame: &Frame,
        exchange: &Exchange,
    )
        ensures { self.new ≡ exchanged_by
            subject.now self.old progress.now micros side frame.now exchange.now }
    {
        self.take_ended(subject, progress, side, exchange, micros);
        if asks(side, frame) {
            self.take_asked(subject, frame, micros);
        }
        if requests(side, exchange.heard.what) {
            self.settle(subject);
        }
    }

    pub(crate) fn take_sdo(
        &mut self,
        subject: &Subject,
        progress: &Progress,
        micros: u64,
        side: Side,
        frame: &Frame,
    )
        ensures { self.new ≡ exchanged
            subject.now self.old progress.now micros side frame.now progress.now.exchange }
    {
        match &progress.exchange {
            Some(exchange) => self.take_exchange(subject, progress, micros, side, frame, exchange),
            None => self.set_written(progress.written),
        }
    }
}
