//! The texts of SDO requests and answers (CiA 301, 7.2.4.3). Each function appends a text. `Err`:
//! out of memory; a part of the text may be there.

ghost use Rattle.std.specs.Prelude.{◌≡◌, ◌++◌, OnOk, Some, string_bytes};
ghost use Rattle.co_value.specs.KeyTexts.{key_text};
ghost use Rattle.conode_decode.specs.Numbers.{toggle_text};
ghost use Rattle.conode_decode.specs.SdoTexts.{
  expedited_part,
  expedited_text,
  initiate_text,
  segment_text,
  abort_text,
  acknowledge_text,
  block_end_text,
  request_text,
  request_key,
  answer_text,
  answer_key,
};

use crate::numbers::{push_hex, push_key, push_size, push_toggle, push_words};
use co_frame::{AbortCode, ExpeditedData, SdoRequest, SdoResponse};
use co_text::{push_decimal, push_u32};
use co_value::Key;
use std::alloc::AllocError;

fn expedited_part(part: &ExpeditedData) -> &[u8]
    ensures { result.now ≡ expedited_part part.now }
{
    match part {
        ExpeditedData::Indicated(counted) => counted.as_slice(),
        ExpeditedData::NotIndicated(four) => four,
    }
}

#[tactic(auto, unfolding(crate::specs::SdoTexts::expedited_text))]
fn push_expedited(
    text: &mut String,
    service: &str,
    key: Key,
    part: &ExpeditedData,
) -> Result<(), AllocError>
    ensures { OnOk result (string_bytes text.new
        ≡ string_bytes text.old ++ expedited_text service.now key part.now) }
{
    attempt!(push_words(text, service));
    attempt!(push_key(text, key));
    attempt!(push_words(text, " expedited "));
    push_hex(text, expedited_part(part))
}

#[tactic(auto, unfolding(crate::specs::SdoTexts::initiate_text))]
fn push_initiate(
    text: &mut String,
    service: &str,
    key: Key,
    size: Option<u32>,
) -> Result<(), AllocError>
    ensures { OnOk result (string_bytes text.new
        ≡ string_bytes text.old ++ initiate_text service.now key size) }
{
    attempt!(push_words(text, service));
    attempt!(push_key(text, key));
    push_size(text, size)
}

fn push_block_initiate(
    text: &mut String,
    service: &str,
    key: Key,
    block_size: u8,
) -> Result<(), AllocError>
    ensures { OnOk result (string_bytes text.new
        ≡ string_bytes text.old ++ initiate_text service.now key (Some block_size)) }
{
    push_initiate(text, service, key, Some(block_size as u32))
}

fn push_with_key(text: &mut String, service: &str, key: Key) -> Result<(), AllocError>
    ensures { OnOk result
        (string_bytes text.new ≡ string_bytes text.old ++ (service.now ++ key_text key)) }
{
    attempt!(push_words(text, service));
    push_key(text, key)
}

fn push_with_toggle(text: &mut String, service: &str, toggle: bool) -> Result<(), AllocError>
    ensures { OnOk result
        (string_bytes text.new ≡ string_bytes text.old ++ (service.now ++ toggle_text toggle)) }
{
    attempt!(push_words(text, service));
    push_toggle(text, toggle)
}

#[tactic(auto, unfolding(crate::specs::SdoTexts::segment_text))]
fn push_segment(text: &mut String, toggle: bool, part: &[u8], last: bool) -> Result<(), AllocError>
    ensures { OnOk result (string_bytes text.new
        ≡ string_bytes text.old ++ segment_text toggle part.now last) }
{
    attempt!(push_words(text, "segment "));
    attempt!(push_toggle(text, toggle));
    attempt!(push_words(text, " "));
    attempt!(push_hex(text, part));
    push_words(text, if last { " last" } else { "" })
}

#[tactic(auto, unfolding(crate::specs::SdoTexts::abort_text))]
fn push_abort(text: &mut String, key: Key, code: AbortCode) -> Result<(), AllocError>
    ensures { OnOk result (string_bytes text.new ≡ string_bytes text.old ++ abort_text key code) }
{
    attempt!(push_words(text, "abort "));
    attempt!(push_key(text, key));
    attempt!(push_words(text, " "));
    push_u32(text, code.0)
}

#[tactic(auto, unfolding(crate::specs::SdoTexts::acknowledge_text))]
fn push_acknowledge(text: &mut String, sequence: u8, block_size: u8) -> Result<(), AllocError>
    ensures { OnOk result (string_bytes text.new
        ≡ string_bytes text.old ++ acknowledge_text sequence block_size) }
{
    attempt!(push_words(text, "block ack "));
    attempt!(push_decimal(text, sequence as u64));
    attempt!(push_words(text, " size "));
    push_decimal(text, block_size as u64)
}

#[tactic(auto, unfolding(crate::specs::SdoTexts::block_end_text))]
fn push_block_end(text: &mut String, service: &str, unused: u8) -> Result<(), AllocError>
    ensures { OnOk result (string_bytes text.new
        ≡ string_bytes text.old ++ block_end_text service.now unused) }
{
    attempt!(push_words(text, service));
    attempt!(push_words(text, "end unused "));
    push_decimal(text, unused as u64)
}

/// Appends the text of a request, without the name of the entry.
#[tactic(auto, unfolding(crate::specs::SdoTexts::request_text))]
pub(crate) fn push_request(text: &mut String, request: &SdoRequest) -> Result<(), AllocError>
    ensures { OnOk result
        (string_bytes text.new ≡ string_bytes text.old ++ request_text request.now) }
{
    match request {
        SdoRequest::DownloadExpedited { key, data } => {
            push_expedited(text, "download ", *key, data)
        }
        SdoRequest::DownloadInitiate { key, size } => push_initiate(text, "download ", *key, *size),
        SdoRequest::DownloadSegment { toggle, data, last } => {
            push_segment(text, *toggle, data.as_slice(), *last)
        }
        SdoRequest::Upload { key } => { push_with_key(text, "upload ", *key) }
        SdoRequest::UploadSegment { toggle } => {
            push_with_toggle(text, "segment request ", *toggle)
        }
        SdoRequest::Abort { key, code } => push_abort(text, *key, *code),
        SdoRequest::BlockUploadInitiate {
            key,
            block_size,
            threshold: _,
        } => push_block_initiate(text, "block upload ", *key, *block_size),
        SdoRequest::BlockUploadEnd => push_words(text, "block upload end"),
        SdoRequest::BlockUploadAcknowledge {
            sequence,
            block_size,
        } => push_acknowledge(text, *sequence, *block_size),
        SdoRequest::BlockUploadStart => push_words(text, "block upload start"),
        SdoRequest::BlockDownloadInitiate { key, size } => {
            push_initiate(text, "block download ", *key, *size)
        }
        SdoRequest::BlockDownloadEnd { unused } => push_block_end(text, "block download ", *unused),
    }
}

/// The key in a request's text.
#[tactic(auto, unfolding(crate::specs::SdoTexts::request_key))]
pub(crate) fn request_key(request: &SdoRequest) -> Option<Key>
    ensures { result ≡ request_key request.now }
{
    match request {
        SdoRequest::DownloadExpedited { key, .. }
        | SdoRequest::DownloadInitiate { key, .. }
        | SdoRequest::Upload { key }
        | SdoRequest::Abort { key, .. }
        | SdoRequest::BlockUploadInitiate { key, .. }
        | SdoRequest::BlockDownloadInitiate { key, .. } => Some(*key),
        _ => None,
    }
}

/// Appends the text of an answer, without the name of the entry.
#[tactic(auto, unfolding(crate::specs::SdoTexts::answer_text))]
pub(crate) fn push_answer(text: &mut String, answer: &SdoResponse) -> Result<(), AllocError>
    ensures { OnOk result
        (string_bytes text.new ≡ string_bytes text.old ++ answer_text answer.now) }
{
    match answer {
        SdoResponse::DownloadDone { key } => {
            attempt!(push_with_key(text, "download ", *key));
            push_words(text, " done")
        }
        SdoResponse::DownloadSegmentDone { toggle } => {
            push_with_toggle(text, "segment done ", *toggle)
        }
        SdoResponse::UploadExpedited { key, data } => push_expedited(text, "upload ", *key, data),
        SdoResponse::UploadInitiated { key, size } => push_initiate(text, "upload ", *key, *size),
        SdoResponse::UploadSegment { toggle, data, last } => {
            push_segment(text, *toggle, data.as_slice(), *last)
        }
        SdoResponse::Abort { key, code } => push_abort(text, *key, *code),
        SdoResponse::BlockDownloadInitiated { key, block_size } => {
            push_block_initiate(text, "block download ", *key, *block_size)
        }
        SdoResponse::BlockDownloadDone => push_words(text, "block download done"),
        SdoResponse::BlockDownloadAcknowledge {
            sequence,
            block_size,
        } => push_acknowledge(text, *sequence, *block_size),
        SdoResponse::BlockUploadInitiated { key, size } => {
            push_initiate(text, "block upload ", *key, *size)
        }
        SdoResponse::BlockUploadEnd { unused } => push_block_end(text, "block upload ", *unused),
    }
}

/// The key in an answer's text.
#[tactic(auto, unfolding(crate::specs::SdoTexts::answer_key))]
pub(crate) fn answer_key(answer: &SdoResponse) -> Option<Key>
    ensures { result ≡ answer_key answer.now }
{
    match answer {
        SdoResponse::DownloadDone { key }
        | SdoResponse::UploadExpedited { key, .. }
        | SdoResponse::UploadInitiated { key, .. }
        | SdoResponse::Abort { key, .. }
        | SdoResponse::BlockDownloadInitiated { key, .. }
        | SdoResponse::BlockUploadInitiated { key, .. } => Some(*key),
        _ => None,
    }
}
