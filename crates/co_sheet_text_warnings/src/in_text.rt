//! The kinds of warnings that apply at one line of a text at most, and what a kind says of a text.

ghost use Rattle.std.specs.Prelude.{◌≡◌, flat_map, option_to_list};
ghost use Rattle.co_sheet_text_warnings.specs.declared.keys.Topic.TheVariants.{FileInfo, DeviceInfo};
ghost use Rattle.co_sheet_text_warnings.specs.Infos.{
  device_keys,
  file_keys,
  missing_each,
  pdo_counts,
};
ghost use Rattle.co_sheet_text_warnings.specs.InText.{kind_in, place_in_text};
ghost use Rattle.co_sheet_text_warnings.specs.Lists.{no_error_control};

use crate::infos::{
    counts_between, device_keys, file_keys, missing_keys, note_missing, other_counts,
};
use crate::keys::Topic;
use crate::known_key::unknown_key;
use crate::lines::{mixed_line_ends, other_bytes};
use crate::read_text::ReadText;
use crate::warning::WarningKind;

// no line is to blame for what isn't there
fn no_error_control(text: &ReadText) -> Option<usize>
    ensures { option_to_list result ≡ no_error_control text.now.sections }
{
    let guards = text.is_listed(0x100C) && text.is_listed(0x100D);
    if text.is_listed(0x1000) && !text.is_listed(0x1017) && !guards {
        Some(0)
    } else {
        None
    }
}

/// The line of a text where a kind applies that has one at most (CiA 306-1, structure of an EDS,
/// file information, device information); 0 where no line is to blame. Of other kinds none.
#[tactic(auto, unfolding(crate::specs::InText::place_in_text))]
pub fn place_in_text(text: &ReadText, kind: WarningKind) -> Option<usize>
    ensures { option_to_list result ≡ place_in_text text.now kind }
{
    match kind {
        WarningKind::FileInfoKeys(_) => missing_keys(
            Topic::FileInfo,
            text.keys,
            text.sections(),
            file_keys(),
        ),
        WarningKind::DeviceInfoKeys(_) => missing_keys(
            Topic::DeviceInfo,
            text.keys,
            text.sections(),
            device_keys(),
        ),
        WarningKind::NoErrorControl => no_error_control(text),
        WarningKind::Utf8 => other_bytes(text, true),
        WarningKind::NotAscii => other_bytes(text, false),
        WarningKind::UnknownKey => unknown_key(text.keys),
        WarningKind::LineEnds => mixed_line_ends(text.bytes),
        _ => None,
    }
}

fn file_keys_missing(text: &ReadText) -> [bool; 10]
    ensures { result ≡ missing_each FileInfo text.now.keys file_keys }
{
    let mut missing = [false; 10];
    note_missing(&mut missing, Topic::FileInfo, text.keys, file_keys());
    missing
}

fn device_keys_missing(text: &ReadText) -> [bool; 22]
    ensures { result ≡ missing_each DeviceInfo text.now.keys device_keys }
{
    let mut missing = [false; 22];
    note_missing(&mut missing, Topic::DeviceInfo, text.keys, device_keys());
    missing
}

/// The lines of NrOfRXPDO and NrOfTXPDO, where they aren't the numbers of PDOs (CiA 306-1, device
/// information).
pub fn pdo_counts(text: &ReadText) -> [Option<usize>; 2]
    ensures { flat_map option_to_list result ≡ pdo_counts text.now.keys text.now.sections }
{
    let receive = counts_between(text, 0x1400, 0x15FF);
    let transmit = counts_between(text, 0x1800, 0x19FF);
    other_counts(text.keys, receive, transmit)
}

/// A kind with what it says of a text: of the keys that have to be there which are missing, and the
/// node-ID of the device (CiA 306-1, file information, device information).
#[tactic(auto, unfolding(crate::specs::InText::kind_in))]
pub fn kind_in(text: &ReadText, kind: WarningKind) -> WarningKind
    ensures { result ≡ kind_in text.now kind }
{
    match kind {
        WarningKind::FileInfoKeys(_) => WarningKind::FileInfoKeys(file_keys_missing(text)),
        WarningKind::DeviceInfoKeys(_) => WarningKind::DeviceInfoKeys(device_keys_missing(text)),
        WarningKind::SharedCobId(_) => WarningKind::SharedCobId(text.node.unwrap_or(0)),
        WarningKind::HeartbeatTwice(_) => WarningKind::HeartbeatTwice(text.node),
        _ => kind,
    }
}
