//! Frames as text.

use crate::bad_script::BadScript;
use co_frame::Frame;
use co_text::HexPairs;

/// The frame of a text such as `080#01`.
pub fn frame_of(text: &str) -> Result<Frame, BadScript> {
    let (id, digits) = text.split_once('#').ok_or(BadScript)?;
    let id = u16::from_str_radix(id, 16).ok().ok_or(BadScript)?;
    if digits.is_empty() {
        return Frame::new(id, &[]).ok().ok_or(BadScript);
    }
    let mut pairs = HexPairs::read(digits.as_bytes()).ok_or(BadScript)?;
    let mut bytes = [0; 8];
    let length = pairs.len();
    for place in bytes.iter_mut() {
        *place = pairs.next().unwrap_or(0);
    }
    let data = bytes.get(..length).ok_or(BadScript)?;
    Frame::new(id, data).ok().ok_or(BadScript)
}

/// Whether frames are those of a text, in order.
pub fn are_frames(sent: &[Frame], text: &str) -> Result<bool, BadScript> {
    let mut frames = sent.iter();
    for word in text.split_whitespace() {
        if frames.next() != Some(&frame_of(word)?) {
            return Ok(false);
        }
    }
    Ok(frames.next().is_none())
}
