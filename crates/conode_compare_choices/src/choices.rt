//! What a device chose in a transfer (CiA 301, 7.2.4.3), and with a heartbeat (7.2.8.3.2).

ghost use Rattle.std.specs.Prelude.{◌≡◌, true, map};
ghost use Rattle.std.specs.List.{AllPairs};
ghost use Rattle.co_sheet.specs.SheetViews.{row_view};
ghost use Rattle.co_value.specs.Keys.{is_key_before};
ghost use Rattle.conode_compare_choices.specs.Choices.{
  aborted_choice,
  acknowledge_choice,
  block_download_choice,
  block_upload_choice,
  choice_at,
  ended_choice,
  exchange_choice,
  initiate_choice,
  is_abort,
  part_choice,
  remark_choice,
  segment_choice,
  server_choice,
  stray_choice,
  switched_choice,
};

use crate::choice::Choice;
use crate::codes::code_choice;
use crate::request::Request;
use co_frame::{AbortCode, Frame};
use co_sheet::EntryRow;
use co_value::Key;
use conode_compare_nmt::Remark;
use conode_compare_rules::FrameKind;
use conode_compare_transfers::{Asked, Exchange, byte_at, key_in};
use conode_explain_transfers::{Direction, Ended, Ending, Protocol, Side, What};

// an abort with this code
fn aborted_choice(
    rows: &[EntryRow<'_>],
    request: &Request,
    asked: Option<Asked>,
    frame: &Frame,
    ended: &Ended,
    code: AbortCode,
) -> Option<Choice>
    requires { AllPairs (λ e f. is_key_before e.key f.key ≡ true) rows.now }
    ensures { result
        ≡ aborted_choice (map row_view rows.now) request.now asked frame.now ended.now code }
{
    if code == AbortCode::TIMED_OUT {
        Some(Choice::Timeout(ended.key))
    } else {
        code_choice(rows, request, asked, frame, ended, code)
    }
}

// by how a transfer ends with a frame
fn ended_choice(
    rows: &[EntryRow<'_>],
    request: &Request,
    asked: Option<Asked>,
    frame: &Frame,
    ended: &Ended,
) -> Option<Choice>
    requires { AllPairs (λ e f. is_key_before e.key f.key ≡ true) rows.now }
    ensures { result
        ≡ ended_choice (map row_view rows.now) request.now asked frame.now ended.now }
{
    match (ended.direction, ended.protocol, ended.ending) {
        (
            _,
            _,
            Ending::Aborted {
                by: Side::Server,
                code,
            },
        ) => aborted_choice(rows, request, asked, frame, ended, code),
        (Direction::Upload, Protocol::Segmented, Ending::Done { crc: _ })
            if 1 <= ended.bytes && ended.bytes <= 4 => {
            Some(Choice::Segments(ended.key, ended.bytes))
        }
        (Direction::Upload, Protocol::Expedited, Ending::Done { crc: _ })
            if byte_at(frame, 0) % 2 == 0 => { Some(Choice::NoSize(ended.key)) }
        _ => None,
    }
}

// a segment of an upload, c = 0, with n unused bytes
fn segment_choice(of: Option<Key>, first: u8) -> Option<Choice>
    ensures { result ≡ segment_choice of first }
{
    let unused = first / 2 % 8;
    match of {
        Some(key) if first % 2 == 0 && unused > 0 => Some(Choice::ShortSegment(key, 7 - unused)),
        _ => None,
    }
}

// the response to initiate of an upload in segments, e = 0
fn initiate_choice(key: Key, first: u8) -> Option<Choice>
    ensures { result ≡ initiate_choice key first }
{
    if first % 4 == 0 {
        Some(Choice::NoSize(key))
    } else {
        None
    }
}

// the response to initiate of a block download, ss = 0
fn block_download_choice(key: Key, first: u8, size: u8) -> Option<Choice>
    ensures { result ≡ block_download_choice key first size }
{
    if first % 4 != 0 {
        None
    } else if first / 4 % 2 == 0 {
        Some(Choice::NoCrc(key))
    } else if size != 127 {
        Some(Choice::BlockSize(key, size))
    } else {
        None
    }
}

// the acknowledge of a sub-block of a block download, ss = 2, with the size of the next one
fn acknowledge_choice(of: Option<Key>, size: u8) -> Option<Choice>
    ensures { result ≡ acknowledge_choice of size }
{
    match of {
        Some(key) if size != 0 && size != 127 => Some(Choice::BlockSize(key, size)),
        _ => None,
    }
}

// the response to initiate of a block upload, ss = 0
fn block_upload_choice(key: Key, first: u8) -> Option<Choice>
    ensures { result ≡ block_upload_choice key first }
{
    if first % 2 != 0 {
        None
    } else if first / 4 % 2 == 0 {
        Some(Choice::NoCrc(key))
    } else if first / 2 % 2 == 0 {
        Some(Choice::NoSize(key))
    } else {
        None
    }
}

// by an answer after which the transfer goes on
fn part_choice(of: Option<Key>, frame: &Frame) -> Option<Choice>
    ensures { result ≡ part_choice of frame.now }
{
    let first = byte_at(frame, 0);
    match first / 32 {
        0 => segment_choice(of, first),
        2 => initiate_choice(key_in(frame), first),
        5 if first % 4 == 2 => acknowledge_choice(of, byte_at(frame, 2)),
        5 => block_download_choice(key_in(frame), first, byte_at(frame, 4)),
        6 => block_upload_choice(key_in(frame), first),
        _ => None,
    }
}

// an abort with the code of a timeout: 80h, and 05040000h from byte 4 on
fn is_abort(frame: &Frame) -> bool
    ensures { result ≡ is_abort frame.now }
{
    byte_at(frame, 0) == 0x80
        && byte_at(frame, 4) == 0
        && byte_at(frame, 5) == 0
        && byte_at(frame, 6) == 4
        && byte_at(frame, 7) == 5
}

// by a frame without an open transfer
fn stray_choice(frame: &Frame) -> Option<Choice>
    ensures { result ≡ stray_choice frame.now }
{
    if is_abort(frame) {
        Some(Choice::Timeout(key_in(frame)))
    } else {
        None
    }
}

// the answer to a request that may be answered by another protocol: the response to initiate of an
// upload, scs = 2
fn switched_choice(asked: Option<Asked>, frame: &Frame) -> Option<Choice>
    ensures { result ≡ switched_choice asked frame.now }
{
    match asked {
        Some(asked) if asked.switches && byte_at(frame, 0) / 32 == 2 => {
            Some(Choice::Switched(asked.key))
        }
        _ => None,
    }
}

// by an answer that goes on with the open transfer, or ends it
fn server_choice(
    rows: &[EntryRow<'_>],
    request: &Request,
    exchange: &Exchange,
    frame: &Frame,
) -> Option<Choice>
    requires { AllPairs (λ e f. is_key_before e.key f.key ≡ true) rows.now }
    ensures { result ≡ server_choice (map row_view rows.now) request.now exchange.now frame.now }
{
    match (
        switched_choice(exchange.asked, frame),
        &exchange.heard.ended,
    ) {
        (Some(choice), _) => Some(choice),
        (None, Some(ended)) => ended_choice(rows, request, exchange.asked, frame, ended),
        (None, None) => part_choice(exchange.heard.of, frame),
    }
}

// by an answer, where no earlier request can be answered
fn exchange_choice(
    rows: &[EntryRow<'_>],
    request: &Request,
    exchange: &Exchange,
    frame: &Frame,
) -> Option<Choice>
    requires { AllPairs (λ e f. is_key_before e.key f.key ≡ true) rows.now }
    ensures { result ≡ exchange_choice (map row_view rows.now) request.now exchange.now frame.now }
{
    if !exchange.certain {
        return None;
    }
    match (exchange.heard.what, &exchange.heard.ended) {
        (What::Part, _) => server_choice(rows, request, exchange, frame),
        (What::Stray, None) => stray_choice(frame),
        _ => None,
    }
}

// a heartbeat that comes early
fn remark_choice(remark: Option<Remark>) -> Option<Choice>
    ensures { result ≡ remark_choice remark }
{
    match remark {
        Some(Remark::EarlyHeartbeat(passed, period)) => Some(Choice::Heartbeat(passed, period)),
        _ => None,
    }
}

/// What the device chose with a frame, by what that is to it, and on its SDO channel, and what else
/// it shows; `rows` are the data sheet's entries, in increasing key, `request` is the newest one of
/// the channel.
#[tactic(auto, unfolding(crate::specs::Choices::choice_at))]
pub(crate) fn choice_at(
    rows: &[EntryRow<'_>],
    request: &Request,
    kind: &FrameKind,
    exchange: &Option<Exchange>,
    remark: Option<Remark>,
) -> Option<Choice>
    requires { AllPairs (λ e f. is_key_before e.key f.key ≡ true) rows.now }
    ensures { result
        ≡ choice_at (map row_view rows.now) request.now kind.now exchange.now remark }
{
    match (kind, exchange) {
        (FrameKind::Sdo(Side::Server, frame), Some(exchange)) => {
            exchange_choice(rows, request, exchange, frame)
        }
        _ => remark_choice(remark),
    }
}
