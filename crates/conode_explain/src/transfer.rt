//! What an expedited transfer says of its entry.

ghost use Rattle.std.specs.Prelude.{◌≡◌, ◌++◌, ◌≤◌, OnOk, length, string_bytes};
ghost use Rattle.co_sheet.specs.SheetViews.{row_view};
ghost use Rattle.conode_explain_cob_ids.specs.Devices.{device_view};
ghost use Rattle.conode_explain.specs.Transfers.{
  download_in,
  front_of,
  is_answer,
  is_request,
  service_text,
  transfer_in,
  transfer_text,
  upload_in,
  value_bytes,
};

use co_frame::{ExpeditedData, Frame, SdoRequest, SdoResponse};
use co_sheet::EntryRow;
use co_text::push_decimal;
use co_value::{DataType, Key};
use conode_explain_cob_ids::Device;
use conode_explain_pdo::push_known;
use std::alloc::AllocError;

/// An expedited transfer, by the frame that has its value.
#[derive(Drop)]
pub(crate) struct Transfer {
    /// Whether it is a download, which is asked for; else it is an upload.
    pub(crate) asked: bool,
    /// The node-ID of the server.
    pub(crate) node: u8,
    pub(crate) key: Key,
    pub(crate) content: ExpeditedData,
}

/// Whether a frame is a request on a default SDO channel (CiA 301, 7.3.3).
pub(crate) fn is_request(frame: &Frame) -> bool
    ensures { result ≡ is_request frame.now }
{
    (0x600 < frame.id() && frame.id() < 0x680) && frame.bytes().len() == 8
}

/// Whether it is an answer there.
pub(crate) fn is_answer(frame: &Frame) -> bool
    ensures { result ≡ is_answer frame.now }
{
    (0x580 < frame.id() && frame.id() < 0x600) && frame.bytes().len() == 8
}

fn download_in(node: u8, request: SdoRequest) -> Option<Transfer>
    ensures { result ≡ download_in node request }
{
    match request {
        SdoRequest::DownloadExpedited { key, data } => Some(Transfer {
            asked: true,
            node,
            key,
            content: data,
        }),
        _ => None,
    }
}

fn upload_in(node: u8, answer: SdoResponse) -> Option<Transfer>
    ensures { result ≡ upload_in node answer }
{
    match answer {
        SdoResponse::UploadExpedited { key, data } => Some(Transfer {
            asked: false,
            node,
            key,
            content: data,
        }),
        _ => None,
    }
}

/// The expedited transfer whose value a frame has: the request of a download, or the answer of an
/// upload (CiA 301, 7.2.4.3.3 and 7.2.4.3.6).
#[tactic(auto, unfolding(crate::specs::Transfers::transfer_in))]
pub(crate) fn transfer_in(frame: &Frame) -> Option<Transfer>
    ensures { result ≡ transfer_in frame.now }
{
    if is_request(frame) {
        return match SdoRequest::read(frame) {
            Some(request) => download_in((frame.id() - 0x600) as u8, request),
            None => None,
        };
    }
    if is_answer(frame) {
        return match SdoResponse::read(frame) {
            Some(answer) => upload_in((frame.id() - 0x580) as u8, answer),
            None => None,
        };
    }
    None
}

fn value_bytes(data_type: DataType, content: &ExpeditedData) -> &[u8]
    ensures bytes { result.now ≡ value_bytes data_type content.now }
    ensures few { length result.now ≤ 4 }
{
    match content {
        ExpeditedData::Indicated(counted) => counted.as_slice(),
        ExpeditedData::NotIndicated(four) => {
            let width = data_type.width().unwrap_or(4);
            &four[..width.min(4)]
        }
    }
}

/// Appends a service, its node, and what follows.
#[tactic(auto, unfolding(crate::specs::Transfers::service_text))]
pub(crate) fn push_service(
    text: &mut String,
    service: &str,
    node: u8,
    end: &str,
) -> Result<(), AllocError>
    ensures { OnOk result (string_bytes text.new
        ≡ string_bytes text.old ++ service_text service.now node end.now) }
{
    attempt!(text.push_str(service));
    attempt!(push_decimal(text, node as u64));
    text.push_str(end)
}

fn push_front(text: &mut String, transfer: &Transfer) -> Result<(), AllocError>
    ensures { OnOk result
        (string_bytes text.new ≡ string_bytes text.old ++ front_of transfer.now) }
{
    if transfer.asked {
        push_service(text, "SDO request node ", transfer.node, " download: ")
    } else {
        push_service(text, "SDO answer node ", transfer.node, " upload: ")
    }
}

/// Appends the entry of a transfer, as its row in the sheet has it, with its value, and of a drive
/// what that means: `SDO request node 5 download: Temperature 2001:01 = 1000`. On an `Err` memory
/// ran out, and a part of it may be there.
#[tactic(auto, unfolding(crate::specs::Transfers::transfer_text))]
pub(crate) fn push_transfer(
    text: &mut String,
    device: Device<'_, '_>,
    transfer: &Transfer,
    row: &EntryRow<'_>,
) -> Result<(), AllocError>
    ensures { OnOk result (string_bytes text.new
        ≡ string_bytes text.old
        ++ transfer_text (device_view device.entry) transfer.now (row_view row.now)) }
{
    let bytes = value_bytes(row.data_type, &transfer.content);
    attempt!(push_front(text, transfer));
    push_known(
        text,
        device,
        transfer.node,
        transfer.key,
        row,
        8 * bytes.len(),
        bytes,
    )
}
