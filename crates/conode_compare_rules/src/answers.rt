//! Answers of a device on its default SDO channel (CiA 301, 7.2.4.3).

ghost use Rattle.std.specs.Prelude.{◌≡◌, true, map};
ghost use Rattle.std.specs.List.{AllPairs};
ghost use Rattle.co_sheet.specs.SheetViews.{row_view};
ghost use Rattle.co_value.specs.Keys.{is_key_before};
ghost use Rattle.conode_compare_rules.specs.Answers.{
  answer_finding,
  breach_finding,
  could_answer_since,
  confirmed_finding,
  ended_finding,
  held_finding,
  is_abort,
  is_exact,
  known_answer,
  late_answer,
  overdue_answer,
  refuses_other,
  silence_finding,
  stopped_finding,
  what_finding,
};

use co_frame::Frame;
use co_sheet::EntryRow;
use conode_compare_nmt::{Finding, Limits, Nmt, NmtState, Subject};
use conode_compare_transfers::{
    Asked, Breach, Dialogue, Exchange, byte_at, early_abort, is_past, is_timed, key_in,
};
use conode_compare_values::{Written, mismatch_at};
use conode_explain_transfers::{Ended, Protocol, What};

/// Whether a frame of the SDO channel is an abort (CiA 301, 7.2.4.3.17).
pub(crate) fn is_abort(frame: &Frame) -> bool
    ensures { result ≡ is_abort frame.now }
{
    byte_at(frame, 0) / 32 == 4
}

// whether an upload that ends with a frame shows how many of its bytes count
fn is_exact(protocol: Protocol, frame: &Frame) -> bool
    ensures { result ≡ is_exact protocol frame.now }
{
    match protocol {
        Protocol::Expedited => byte_at(frame, 0) % 2 == 1,
        Protocol::Segmented => byte_at(frame, 0) / 2 % 8 != 0,
        _ => true,
    }
}

// the difference of an answer that took too long
fn late_answer(limits: &Limits, asked: Option<Asked>, micros: u64) -> Option<Finding>
    ensures { result ≡ late_answer limits.now asked micros }
{
    match asked {
        Some(asked) if is_timed(asked.key) && is_past(asked.micros, limits.answer, micros) => {
            Some(Finding::NoAnswer(asked.key, micros.saturating_sub(asked.micros)))
        }
        _ => None,
    }
}

// an abort of another entry, whose request came earlier
fn refuses_other(frame: &Frame, ended: &Ended) -> bool
    ensures { result ≡ refuses_other frame.now ended.now }
{
    is_abort(frame) && key_in(frame) != ended.key
}

// otherwise than the data sheet has the entry of a transfer that ended
fn ended_finding(
    subject: &Subject,
    rows: &[EntryRow<'_>],
    frame: &Frame,
    ended: &Option<Ended>,
) -> Option<Finding>
    requires { AllPairs (λ e f. is_key_before e.key f.key ≡ true) rows.now }
    ensures { result ≡ ended_finding subject.now (map row_view rows.now) frame.now ended.now }
{
    match ended {
        Some(ended) if !refuses_other(frame, ended) => {
            let exact = is_exact(ended.protocol, frame);
            let modular = subject.facts.modular;
            match mismatch_at(subject.node, modular, subject.rooms, rows, exact, ended) {
                Some(mismatch) => Some(Finding::Value(mismatch)),
                None => None,
            }
        }
        _ => None,
    }
}

// by what the answer is in the transfers of the channel
#[tactic(auto, unfolding(crate::specs::Answers::what_finding))]
fn what_finding(
    subject: &Subject,
    rows: &[EntryRow<'_>],
    exchange: &Exchange,
    frame: &Frame,
) -> Option<Finding>
    requires { AllPairs (λ e f. is_key_before e.key f.key ≡ true) rows.now }
    ensures { result ≡ what_finding subject.now (map row_view rows.now) exchange.now frame.now }
{
    match (exchange.heard.what, exchange.asked) {
        (What::Stray, _) if !is_abort(frame) => Some(Finding::Unasked),
        (What::Overtaken, Some(asked)) => Some(Finding::AnswerKey(asked.key)),
        (What::Unexpected, Some(asked)) => Some(Finding::AnswerForm(asked.key)),
        (What::Part, _) => ended_finding(subject, rows, frame, &exchange.heard.ended),
        _ => None,
    }
}

// whether the device wasn't stopped as it was asked, nor since
fn could_answer_since(limits: &Limits, nmt: &Nmt, asked: Option<Asked>) -> bool
    ensures { result ≡ could_answer_since limits.now nmt.now asked }
{
    match asked {
        Some(asked) => {
            nmt.is_steady(limits, asked.micros) && !nmt.leaving.was_stopped(asked.micros)
        }
        None => false,
    }
}

// an answer that took too long, to a request that it is owed
fn overdue_answer(limits: &Limits, nmt: &Nmt, exchange: &Exchange, micros: u64) -> Option<Finding>
    ensures { result ≡ overdue_answer limits.now nmt.now exchange.now micros }
{
    if exchange.owed && could_answer_since(limits, nmt, exchange.asked) {
        late_answer(limits, exchange.asked, micros)
    } else {
        None
    }
}

fn breach_finding(breach: Option<Breach>) -> Option<Finding>
    ensures { result ≡ breach_finding breach }
{
    match breach {
        Some(breach) => Some(Finding::Transfer(breach)),
        None => None,
    }
}

// the difference of an answer that comes in time
fn known_answer(
    subject: &Subject,
    rows: &[EntryRow<'_>],
    exchange: &Exchange,
    frame: &Frame,
) -> Option<Finding>
    requires { AllPairs (λ e f. is_key_before e.key f.key ≡ true) rows.now }
    ensures { result ≡ known_answer subject.now (map row_view rows.now) exchange.now frame.now }
{
    let limits = &subject.limits;
    let early = early_abort(limits.tolerance, limits.drift, limits.time, exchange);
    what_finding(subject, rows, exchange, frame).or(breach_finding(exchange.breach.or(early)))
}

/// `answer-state`: the answer to a request that came while the device was stopped, once the
/// tolerance after the command, or the change, was over.
#[tactic(auto, unfolding(crate::specs::Answers::stopped_finding))]
pub(crate) fn stopped_finding(
    limits: &Limits,
    started: u64,
    nmt: &Nmt,
    exchange: &Exchange,
) -> Option<Finding>
    ensures { result ≡ stopped_finding limits.now started nmt.now exchange.now }
{
    if !exchange.certain {
        return None;
    }
    let asked = exchange.asked?;
    if matches!(nmt.judged_state(), NmtState::Stopped)
        && nmt.is_settled(limits, started, asked.micros)
        && nmt.is_steady(limits, asked.micros)
    {
        Some(Finding::AnswerStopped(asked.key))
    } else {
        None
    }
}

/// The difference of an upload of an entry that is held to what was written.
#[tactic(auto, unfolding(crate::specs::Answers::held_finding))]
pub(crate) fn held_finding(
    subject: &Subject,
    written: &Written,
    exchange: &Exchange,
) -> Option<Finding>
    ensures { result ≡ held_finding subject.now written.now exchange.now }
{
    match written.mismatch(&subject.held, exchange.certain, &exchange.heard.ended) {
        Some(mismatch) => Some(Finding::Held(mismatch)),
        None => None,
    }
}

/// The difference of the block upload that the client's confirmation ends; `written`: what was
/// written to the entries that are held.
#[tactic(auto, unfolding(crate::specs::Answers::confirmed_finding))]
pub(crate) fn confirmed_finding(
    subject: &Subject,
    rows: &[EntryRow<'_>],
    written: &Written,
    exchange: &Exchange,
    frame: &Frame,
) -> Option<Finding>
    requires { AllPairs (λ e f. is_key_before e.key f.key ≡ true) rows.now }
    ensures { result ≡ confirmed_finding
        subject.now (map row_view rows.now) written.now exchange.now frame.now }
{
    if !exchange.certain {
        return None;
    }
    let held = held_finding(subject, written, exchange);
    let value = ended_finding(subject, rows, frame, &exchange.heard.ended).or(held);
    breach_finding(exchange.breach).or(value)
}

/// The difference of an answer, where no earlier request can be answered.
#[tactic(auto, unfolding(crate::specs::Answers::answer_finding))]
pub(crate) fn answer_finding(
    subject: &Subject,
    rows: &[EntryRow<'_>],
    micros: u64,
    nmt: &Nmt,
    exchange: &Exchange,
    frame: &Frame,
) -> Option<Finding>
    requires { AllPairs (λ e f. is_key_before e.key f.key ≡ true) rows.now }
    ensures { result ≡ answer_finding subject.now
        (map row_view rows.now) micros nmt.now exchange.now frame.now }
{
    if !exchange.certain {
        return None;
    }
    overdue_answer(&subject.limits, nmt, exchange, micros).or(known_answer(
        subject, rows, exchange, frame,
    ))
}

/// The difference of a heartbeat while a request isn't answered in time: the device lives, and
/// could have answered since it was asked. Not where the heartbeat shows stopped: the device may
/// have stopped by itself (1029h) before it was asked. Nor where one showed since that it left
/// stopped, or it may have been stopped still after a command that leads out of that.
#[tactic(auto, unfolding(crate::specs::Answers::silence_finding))]
pub(crate) fn silence_finding(
    limits: &Limits,
    started: u64,
    nmt: &Nmt,
    dialogue: &Dialogue,
    micros: u64,
    byte: u8,
) -> Option<Finding>
    ensures { result
        ≡ silence_finding limits.now started nmt.now dialogue.now micros byte }
{
    if byte % 128 == 4 {
        return None;
    }
    let asked = dialogue.asked?;
    if !matches!(nmt.state, NmtState::PreOperational | NmtState::Operational) {
        return None;
    }
    if !nmt.is_settled(limits, started, asked.micros)
        || !nmt.is_steady(limits, asked.micros)
        || nmt.leaving.was_stopped(asked.micros)
        || !dialogue.is_certain(limits.answer, started, asked.micros)
    {
        return None;
    }
    late_answer(limits, Some(asked), micros)
}
