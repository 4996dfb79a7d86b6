//! CAN frames and the services of CANopen that they spell.
#![tactic(auto)]

mod aborts;
mod app_event;
mod block_segment;
mod ccs;
mod emergency;
mod frame;
mod heartbeat;
mod ids;
mod nmt;
mod outbox;
mod scs;
mod sdo_bytes;
mod sdo_fields;
mod sdo_request;
mod sdo_response;
mod segment_sizes;
mod subcommands;
mod sync;

pub use aborts::abort_byte;
pub use app_event::AppEvent;
pub use block_segment::BlockSegment;
pub use co_frame_aborts::AbortCode;
pub use emergency::Emergency;
pub use frame::{Frame, FrameFault};
pub use heartbeat::Heartbeat;
pub use ids::Ids;
pub use nmt::{NmtCommand, NmtService};
pub use outbox::{Outbox, outbox_room};
pub use sdo_request::{ExpeditedData, SdoRequest};
pub use sdo_response::SdoResponse;
pub use segment_sizes::{
    BYTES_PER_SEGMENT, BYTES_PER_SUB_BLOCK, SEGMENTS_PER_SUB_BLOCK, segment_numbers,
};
pub use sync::Sync;
