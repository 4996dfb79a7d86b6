//! An input whose frame is a separate argument.

use co_frame::AppEvent;
use co_value::Key;

/// An input of a device; the frame of a received one is a separate argument.
#[derive(Clone, Copy)]
pub enum Given<'a> {
    /// A frame was received; frame and addressee are separate arguments.
    Frame,
    /// 1 ms elapsed.
    Tick,
    /// An application event.
    App(AppEvent<&'a [u8]>),
    /// The application writes bytes into the entry at a place, which has this key.
    WriteAt(u32, Key, &'a [u8]),
}
