//! The states of a channel.

use crate::bad_script::BadScript;
use crate::frames::frame_of;
use crate::reply_table::{
    Outcome, block_upload_ended, block_upload_initiated, block_upload_sent, full_sub_block, idle,
    last_segment_taken, segmented_download, segmented_upload, sub_block,
};
use arrayvec::ArrayVec;
use co_frame::Frame;

/// A state of a channel. The open transfer is one of 2001h.
#[derive(Clone, Copy, Debug, PartialEq, Eq)]
pub enum State {
    Idle,
    SegmentedDownload,
    SegmentedUpload,
    /// Inside a sub-block of a block download.
    SubBlock,
    /// The same, when more bytes are held than the capacity of the entry.
    FullSubBlock,
    /// After the last segment of a block download.
    LastSegmentTaken,
    BlockUploadInitiated,
    BlockUploadSent,
    BlockUploadEnded,
}

/// All states.
pub const STATES: [State; 9] = [
    State::Idle,
    State::SegmentedDownload,
    State::SegmentedUpload,
    State::SubBlock,
    State::FullSubBlock,
    State::LastSegmentTaken,
    State::BlockUploadInitiated,
    State::BlockUploadSent,
    State::BlockUploadEnded,
];

impl State {
    /// The requests that lead to it, at most four, with their answers.
    pub fn opening(self) -> &'static str {
        match self {
            State::Idle => "",
            State::SegmentedDownload => {
                "605#210120000A000000 585#6001200000000000
                605#0061626364656667 585#2000000000000000"
            }
            State::SegmentedUpload => {
                "605#4001200000000000 585#410120000A000000
                605#6000000000000000 585#0030313233343536"
            }
            State::SubBlock => { "605#C20120000A000000 585#A00120007F000000 605#0161626364656667" }
            State::FullSubBlock => {
                "605#C20120000A000000 585#A00120007F000000 605#0161626364656667 605#0261626364656667"
            }
            State::LastSegmentTaken => {
                "605#C20120000A000000 585#A00120007F000000 605#0161626364656667
                605#8268696A00000000 585#A2027F0000000000"
            }
            State::BlockUploadInitiated => "605#A00120007F000000 585#C20120000A000000",
            State::BlockUploadSent => {
                "605#A00120007F000000 585#C20120000A000000
                605#A300000000000000 585#0130313233343536 585#8237383900000000"
            }
            State::BlockUploadEnded => {
                "605#A00120007F000000 585#C20120000A000000
                605#A300000000000000 585#0130313233343536 585#8237383900000000
                605#A2027F0000000000 585#D100000000000000"
            }
        }
    }

    /// These requests without their answers.
    pub fn requests(self) -> Result<ArrayVec<Frame, 4>, BadScript> {
        let mut requests = ArrayVec::new();
        for text in self.opening().split_whitespace() {
            let frame = frame_of(text)?;
            if frame.id() == 0x605 && !requests.is_full() {
                requests.push(frame);
            }
        }
        Ok(requests)
    }

    /// The outcome of a frame with these first two bytes; the others are 0.
    pub fn outcome(self, first: u8, second: u8) -> Outcome {
        match self {
            State::Idle => idle(first, second),
            State::SegmentedDownload => segmented_download(first, second),
            State::SegmentedUpload => segmented_upload(first, second),
            State::SubBlock => sub_block(first),
            State::FullSubBlock => full_sub_block(first),
            State::LastSegmentTaken => last_segment_taken(first, second),
            State::BlockUploadInitiated => block_upload_initiated(first, second),
            State::BlockUploadSent => block_upload_sent(first, second),
            State::BlockUploadEnded => block_upload_ended(first, second),
        }
    }
}
