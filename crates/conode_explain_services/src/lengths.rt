//! Frames whose number of bytes isn't that of their service (CiA 301, 7.2.4 to 7.2.8; CiA 305).

ghost use Rattle.std.specs.Prelude.{◌≡◌, ◌++◌, [], OnOk, is_some, string_bytes, unwrap_or};
ghost use Rattle.conode_explain_services.specs.Lengths.{
  due_words,
  fits,
  fixed_at,
  fixed_name,
  is_between,
  length_words,
  node_words,
  odd_length,
};

use crate::nodes::is_error_control_id;
use crate::reserved::is_lss_id;
use co_frame::Frame;
use co_text::push_decimal;
use std::alloc::AllocError;

/// A service that fixes the number of bytes of its frames.
#[derive(Clone, Copy)]
pub(crate) enum Fixed {
    Nmt,
    Sync,
    Emergency,
    Time,
    SdoAnswer,
    SdoRequest,
    ErrorControl,
    Lss,
}

fn is_between(low: u16, high: u16, id: u16) -> bool
    ensures { result ≡ is_between low high id }
{
    low < id && id < high
}

#[tactic(auto, unfolding(crate::specs::Lengths::fixed_at))]
fn fixed_at(id: u16) -> Option<Fixed>
    ensures { result ≡ fixed_at id }
{
    if id == 0x000 {
        Some(Fixed::Nmt)
    } else if id == 0x080 {
        Some(Fixed::Sync)
    } else if is_between(0x080, 0x100, id) {
        Some(Fixed::Emergency)
    } else if id == 0x100 {
        Some(Fixed::Time)
    } else if is_between(0x580, 0x600, id) {
        Some(Fixed::SdoAnswer)
    } else if is_between(0x600, 0x680, id) {
        Some(Fixed::SdoRequest)
    } else if is_error_control_id(id) {
        Some(Fixed::ErrorControl)
    } else if is_lss_id(id) {
        Some(Fixed::Lss)
    } else {
        None
    }
}

impl Fixed {
    fn fits(self, count: usize) -> bool
        ensures { result ≡ fits self count }
    {
        match self {
            Fixed::Nmt => count == 2,
            Fixed::Sync => count < 2,
            Fixed::Time => count == 6,
            Fixed::ErrorControl => count == 1,
            Fixed::Emergency | Fixed::SdoAnswer | Fixed::SdoRequest | Fixed::Lss => count == 8,
        }
    }

    fn due_words(self) -> &'static str
        ensures { result.now ≡ due_words self }
    {
        match self {
            Fixed::Nmt => " in place of 2)",
            Fixed::Sync => " in place of 0 or 1)",
            Fixed::Time => " in place of 6)",
            Fixed::ErrorControl => " in place of 1)",
            Fixed::Emergency | Fixed::SdoAnswer | Fixed::SdoRequest | Fixed::Lss => {
                " in place of 8)"
            }
        }
    }

    fn name(self) -> &'static str
        ensures { result.now ≡ fixed_name self }
    {
        match self {
            Fixed::Nmt => "NMT",
            Fixed::Sync => "SYNC",
            Fixed::Emergency => "EMCY",
            Fixed::Time => "TIME",
            Fixed::SdoAnswer => "SDO answer",
            Fixed::SdoRequest => "SDO request",
            Fixed::ErrorControl => "error control",
            Fixed::Lss => "LSS",
        }
    }

    fn push_node(self, text: &mut String, id: u16) -> Result<(), AllocError>
        ensures { OnOk result (string_bytes text.new ≡ string_bytes text.old ++ node_words self id) }
    {
        match self {
            Fixed::Nmt | Fixed::Sync | Fixed::Time | Fixed::Lss => Ok(()),
            Fixed::Emergency | Fixed::SdoAnswer | Fixed::SdoRequest | Fixed::ErrorControl => {
                attempt!(text.push_str(" node "));
                push_decimal(text, (id % 128) as u64)
            }
        }
    }
}

#[tactic(auto, unfolding(crate::specs::Lengths::odd_length))]
fn push_odd_length(text: &mut String, fixed: Fixed, id: u16, count: usize) -> Result<(), AllocError>
    ensures { OnOk result
        (string_bytes text.new ≡ string_bytes text.old ++ odd_length fixed id count) }
{
    attempt!(text.push_str(fixed.name()));
    attempt!(fixed.push_node(text, id));
    attempt!(text.push_str(" (length "));
    attempt!(push_decimal(text, count as u64));
    text.push_str(fixed.due_words())
}

/// Whether the number of bytes of a frame isn't that of its service.
pub(crate) fn has_odd_length(frame: &Frame) -> bool
    ensures { result ≡ is_some (length_words frame.now) }
{
    match fixed_at(frame.id()) {
        Some(fixed) => !fixed.fits(frame.bytes().len()),
        None => false,
    }
}

/// Appends the service of a frame whose number of bytes isn't that of the service, and both
/// numbers: `EMCY node 5 (length 2 in place of 8)`; nothing for every other frame. On an `Err`
/// memory ran out, and a part of it may be there.
pub(crate) fn push_length(text: &mut String, frame: &Frame) -> Result<(), AllocError>
    ensures { OnOk result (string_bytes text.new
        ≡ string_bytes text.old ++ unwrap_or (length_words frame.now) []) }
{
    let count = frame.bytes().len();
    match fixed_at(frame.id()) {
        Some(fixed) if !fixed.fits(count) => push_odd_length(text, fixed, frame.id(), count),
        _ => Ok(()),
    }
}
