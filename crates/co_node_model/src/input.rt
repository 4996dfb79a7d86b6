//! The inputs of a device.

use co_frame::{AppEvent, Frame};

/// One input of a device.
#[derive(Clone, Copy)]
pub enum Input<'a> {
    /// A CAN frame was received.
    Frame(Frame),
    /// 1 ms elapsed.
    Tick,
    /// An application event.
    App(AppEvent<&'a [u8]>),
}
