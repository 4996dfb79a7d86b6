//! What a node sends in one step.

ghost use Rattle.std.specs.Prelude.{◌≡◌};
ghost use Rattle.co_frame.specs.Outboxes.{outbox_room};

use crate::frame::Frame;
use arrayvec::ArrayVec;

/// The frames that one step sends, in order: at most 514, as many as 512 TPDOs, a heartbeat and one
/// more. It has a fixed size and asks for no memory.
pub type Outbox = ArrayVec<Frame, 514>;

/// How many frames an outbox has room for.
pub fn outbox_room() -> usize
    ensures { result ≡ outbox_room }
{
    let outbox = Outbox::new();
    outbox.capacity()
}
