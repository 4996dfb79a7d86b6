//! The answers of a channel, in each of its states, to a frame whose bytes 2 to 7 are 0. They are
//! written by hand from the protocol (CiA 301, 7.2.4.3), by the command specifier (bits 7 to 5 of
//! byte 0), the rest of byte 0, and byte 1.
//!
//! An initiate request has its key in bytes 1 to 3: here an index up to 00FFh, and sub-index 0.
//! There is no such entry, since indices below 1000h of a data sheet are ignored. So each initiate
//! is refused as `NO_OBJECT`, before any other check. It drops the open transfer, as each abort
//! does.

/// The defaults of the device's entries, for `sheet_of`. Its sheet has the objects of
/// `MANUFACTURER`.
pub const DEFAULTS: &str = "2001=0123456789 2002=0xDEADBEEF";

/// The outcome of a frame.
#[derive(Clone, Copy, Debug, PartialEq, Eq)]
pub struct Outcome {
    /// The data of the frames that answer it.
    pub answers: [Option<[u8; 8]>; 2],
    /// The bytes held after it.
    pub held: usize,
    /// The bytes to which 2001h is set.
    pub set: Option<[u8; 10]>,
}

// Toggle bit not alternated.
const TOGGLE: u32 = 0x0503_0000;

// Client/server command specifier not valid or unknown.
const COMMAND: u32 = 0x0504_0001;

// Invalid block size.
const BLOCK_SIZE: u32 = 0x0504_0002;

// Invalid sequence number.
const SEQUENCE: u32 = 0x0504_0003;

// Object does not exist in the object dictionary.
const NO_OBJECT: u32 = 0x0602_0000;

// Length of service parameter too high.
const TOO_LONG: u32 = 0x0607_0012;

// Length of service parameter too low.
const TOO_SHORT: u32 = 0x0607_0013;

// The index of the entry of the open transfer.
const OPEN: u16 = 0x2001;

// No answer, with `held` bytes held.
fn silent(held: usize) -> Outcome {
    Outcome {
        answers: [None, None],
        held,
        set: None,
    }
}

// One answer, with `held` bytes held.
fn answered(answer: [u8; 8], held: usize) -> Outcome {
    Outcome {
        answers: [Some(answer), None],
        held,
        set: None,
    }
}

// An abort with an index, and sub-index 0.
fn abort(index: u16, code: u32) -> Outcome {
    let [low, high] = index.to_le_bytes();
    let [a, b, c, d] = code.to_le_bytes();
    answered([0x80, low, high, 0, a, b, c, d], 0)
}

// An answer with byte 0 alone, the others 0.
fn confirmed(command: u8, held: usize) -> Outcome {
    answered([command, 0, 0, 0, 0, 0, 0, 0], held)
}

// The acknowledgement of a sub-block: `taken` segments were taken, and the next may have 127.
fn acknowledged(taken: u8, held: usize) -> Outcome {
    answered([0xA2, taken, 127, 0, 0, 0, 0, 0], held)
}

// A confirmed download of these bytes.
fn set(command: u8, bytes: [u8; 10]) -> Outcome {
    Outcome {
        answers: [Some([command, 0, 0, 0, 0, 0, 0, 0]), None],
        held: 0,
        set: Some(bytes),
    }
}

// A number of bytes without the unused ones.
fn less(bytes: usize, unused: u8) -> usize {
    bytes.saturating_sub(usize::from(unused))
}

// The rows that states have in common, for an open transfer of index `open`, 0 if none is open.
fn common(first: u8, second: u8, open: u16) -> Outcome {
    let own = u16::from(second);
    match (first >> 5, first & 3) {
        (0, _) => abort(open, COMMAND), // download SDO segment
        (1, _) => abort(own, NO_OBJECT), // initiate SDO download, expedited or segmented
        (2, _) => abort(own, NO_OBJECT), // initiate SDO upload
        (3, _) => abort(open, COMMAND), // upload SDO segment
        (4, _) => silent(0), // abort SDO transfer
        (5, 0) => abort(own, NO_OBJECT), // initiate SDO block upload
        (5, _) => abort(open, COMMAND), // end, acknowledge and start of an SDO block upload
        (6, 0 | 2) => abort(own, NO_OBJECT), // initiate SDO block download
        (6, _) => abort(open, COMMAND), // end SDO block download
        _ => abort(open, COMMAND), // no service
    }
}

/// No transfer is open.
pub(crate) fn idle(first: u8, second: u8) -> Outcome {
    common(first, second, 0)
}

/// A segmented download into an entry with a capacity of twelve bytes. Ten are indicated and seven
/// held, `abcdefg`; the next segment has toggle 1.
pub(crate) fn segmented_download(first: u8, second: u8) -> Outcome {
    let toggle = first >> 4 & 1;
    let unused = first >> 1 & 7;
    let last = first & 1;
    let ten = [b'a', b'b', b'c', b'd', b'e', b'f', b'g', second, 0, 0];
    match (first >> 5, toggle, unused, last) {
        (0, 0, _, _) => abort(OPEN, TOGGLE), // download SDO segment, toggle 0
        (0, 1, 0 | 1, _) => abort(OPEN, TOO_LONG), // download SDO segment, 14 or 13 bytes in all
        (0, 1, n, 0) => confirmed(0x30, less(14, n)), // download SDO segment, not the last
        (0, 1, 2 | 3, 1) => abort(OPEN, TOO_LONG), // last download SDO segment, 12 or 11 bytes in all
        (0, 1, 4, 1) => set(0x30, ten), // last download SDO segment, ten bytes in all
        (0, 1, _, _) => abort(OPEN, TOO_SHORT), // last download SDO segment, 9 bytes or fewer in all
        _ => common(first, second, OPEN),
    }
}

/// A segmented upload of `0123456789` after its first segment; the next request has toggle 1.
pub(crate) fn segmented_upload(first: u8, second: u8) -> Outcome {
    match (first >> 5, first >> 4 & 1) {
        (3, 0) => abort(OPEN, TOGGLE), // upload SDO segment, toggle 0
        (3, _) => answered([0x19, b'7', b'8', b'9', 0, 0, 0, 0], 0), // upload SDO segment, the last
        _ => common(first, second, OPEN),
    }
}

/// Inside a sub-block of a block download into an entry with a capacity of twelve bytes, after the
/// first segment.
pub(crate) fn sub_block(first: u8) -> Outcome {
    match first {
        0x80 => silent(0), // abort SDO transfer
        0x00 => silent(7), // no segment
        0x02 => silent(14), // download SDO block, the next segment
        0x82 => acknowledged(2, 14), // download SDO block, the next segment, which is the last
        0x01..=0x7E => silent(7), // download SDO block, a segment out of sequence
        0x7F | 0x81..=0xFF => acknowledged(1, 7), // download SDO block, one that ends the sub-block
    }
}

/// The same after two segments, when more bytes are held than the capacity.
pub(crate) fn full_sub_block(first: u8) -> Outcome {
    match first {
        0x80 => silent(0), // abort SDO transfer
        0x00 => silent(14), // no segment
        0x03 => silent(21), // download SDO block, the next segment
        0x83 => acknowledged(3, 21), // download SDO block, the next segment, which is the last
        0x01..=0x7E => silent(14), // download SDO block, a segment out of sequence
        0x7F | 0x81..=0xFF => abort(OPEN, TOO_LONG), // download SDO block, one that ends the sub-block
    }
}

/// A block download of ten bytes after its last segment, with fourteen held: `abcdefghij` and four
/// unused.
pub(crate) fn last_segment_taken(first: u8, second: u8) -> Outcome {
    match (first >> 5, first & 1, first >> 2 & 7) {
        (6, 1, 0..=3) => abort(OPEN, TOO_LONG), // end SDO block download, 14 to 11 bytes
        (6, 1, 4) => set(0xA1, *b"abcdefghij"), // end SDO block download, ten bytes
        (6, 1, _) => abort(OPEN, TOO_SHORT), // end SDO block download, 9 to 7 bytes
        _ => common(first, second, OPEN),
    }
}

/// A block upload of `0123456789` in sub-blocks of 127 segments, before its start.
pub(crate) fn block_upload_initiated(first: u8, second: u8) -> Outcome {
    let sub_block = Outcome {
        answers: [
            Some([0x01, b'0', b'1', b'2', b'3', b'4', b'5', b'6']),
            Some([0x82, b'7', b'8', b'9', 0, 0, 0, 0]),
        ],
        held: 10,
        set: None,
    };
    match (first >> 5, first & 3) {
        (5, 3) => sub_block, // start of the SDO block upload
        _ => common(first, second, OPEN),
    }
}

/// The same after its sub-block of two segments. An acknowledgement has their number in byte 1, and
/// block size 0 in byte 2.
pub(crate) fn block_upload_sent(first: u8, second: u8) -> Outcome {
    match (first >> 5, first & 3, second) {
        (5, 2, 0 | 1) => abort(OPEN, BLOCK_SIZE), // upload SDO block, not all acknowledged
        (5, 2, 2) => confirmed(0xD1, 10), // upload SDO block, both acknowledged: end SDO block upload
        (5, 2, _) => abort(OPEN, SEQUENCE), // upload SDO block, more acknowledged than were sent
        _ => common(first, second, OPEN),
    }
}

/// The same after the server's end: the client's end is awaited.
pub(crate) fn block_upload_ended(first: u8, second: u8) -> Outcome {
    match (first >> 5, first & 3) {
        (5, 1) => silent(0), // end SDO block upload
        _ => common(first, second, OPEN),
    }
}
