//! What both ends of an SDO transfer do with its bytes: the sender cuts them into segments and
//! sub-blocks, the receiver collects the segments in a buffer (CiA 301, 7.2.4.3).
#![tactic(auto)]

mod buffer;
mod sender;

pub use buffer::Buffer;
pub use sender::{
    block_segment, expedited_data, is_last_after, part_after, segment_count, segment_data,
    send_sub_block, unused_after,
};
