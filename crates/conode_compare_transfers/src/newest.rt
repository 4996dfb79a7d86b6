//! Whose frame the newest one of an open transfer is.

ghost use Rattle.std.specs.Prelude.{◌≡◌};
ghost use Rattle.conode_compare_transfers.specs.NewestFrames.{
  all_after,
  answers_after,
  asks_after,
  client_newest,
  goes_on,
  last_after,
  newest_after,
  newest_with,
  segment_after,
  server_newest,
};

use crate::breach::byte_at;
use co_frame::Frame;
use conode_explain_transfers::{Side, What};

/// Whose frame the newest one of an open transfer is, where each of its frames came in its turn.
#[derive(Clone, Copy)]
pub enum Newest {
    /// The client's: a request, or a segment of a block download.
    Request,
    /// An answer of the device.
    Answer,
    /// A segment of a block upload, which is of the sub-block that the client asked for last.
    Data,
    /// The last segment of a block upload, by its number, which is of that sub-block too.
    LastData(u8),
    /// The client's acknowledge after such a segment.
    Acknowledge,
    /// A segment after an acknowledge. It may be of the sub-block before: the client may have
    /// acknowledged that before its end.
    LaterData,
    /// The client's acknowledge after such a segment.
    LaterAcknowledge,
    /// The client's acknowledge of the last segment of a block upload.
    AllAcknowledged,
}

// a segment of a block download
fn goes_on(newest: Option<Newest>) -> Option<Newest>
    ensures { result ≡ goes_on newest }
{
    match newest {
        Some(_) => Some(Newest::Request),
        None => None,
    }
}

// A segment of a block upload. The first one of the sub-block before an acknowledge had come, so
// another one with the number 1 is of the new sub-block, and so are all after it.
fn segment_after(number: u8, newest: Option<Newest>) -> Option<Newest>
    ensures { result ≡ segment_after number newest }
{
    match newest {
        Some(Newest::Acknowledge) if number == 1 => Some(Newest::Data),
        Some(
            Newest::Acknowledge
            | Newest::LaterData
            | Newest::LaterAcknowledge
            | Newest::AllAcknowledged,
        ) => Some(Newest::LaterData),
        Some(_) => Some(Newest::Data),
        None => None,
    }
}

// the client's next frame: after an answer, or after the segments of a block
fn asks_after(newest: Option<Newest>) -> Option<Newest>
    ensures { result ≡ asks_after newest }
{
    match newest {
        Some(Newest::Answer) => Some(Newest::Request),
        Some(Newest::Data | Newest::LastData(_)) => Some(Newest::Acknowledge),
        Some(Newest::LaterData) => Some(Newest::LaterAcknowledge),
        _ => None,
    }
}

// the device's answer, after a request
fn answers_after(newest: Option<Newest>) -> Option<Newest>
    ensures { result ≡ answers_after newest }
{
    match newest {
        Some(
            Newest::Request
            | Newest::Acknowledge
            | Newest::LaterAcknowledge
            | Newest::AllAcknowledged,
        ) => Some(Newest::Answer),
        _ => None,
    }
}

fn client_newest(what: What, newest: Option<Newest>) -> Option<Newest>
    ensures { result ≡ client_newest what newest }
{
    match what {
        What::Initiate => Some(Newest::Request),
        What::Part => asks_after(newest),
        What::Segment { number: _ }
        | What::OutOfSequence {
            number: _,
            awaited: _,
        } => goes_on(newest),
        _ => None,
    }
}

fn server_newest(what: What, newest: Option<Newest>) -> Option<Newest>
    ensures { result ≡ server_newest what newest }
{
    match what {
        What::Part => answers_after(newest),
        What::Segment { number } | What::OutOfSequence { number, awaited: _ } => {
            segment_after(number, newest)
        }
        _ => None,
    }
}

// Whose frame the newest one of the open transfer is after a frame by an end. `None` once a frame
// came out of its turn, until the next initiate request.
#[tactic(auto, unfolding(crate::specs::NewestFrames::newest_after))]
fn newest_after(side: Side, what: What, newest: Option<Newest>) -> Option<Newest>
    ensures { result ≡ newest_after side what newest }
{
    match side {
        Side::Client => client_newest(what, newest),
        Side::Server => server_newest(what, newest),
    }
}

// After a segment of a block upload with this first byte: one with c = 1 is the last.
fn last_after(number: u8, first: u8, newest: Option<Newest>) -> Option<Newest>
    ensures { result ≡ last_after number first newest }
{
    match newest {
        Some(Newest::Data) if first >= 128 => Some(Newest::LastData(number)),
        _ => newest,
    }
}

// After the client's acknowledge of the segments up to this number: perhaps it has all.
fn all_after(sequence: u8, newest: Option<Newest>, next: Option<Newest>) -> Option<Newest>
    ensures { result ≡ all_after sequence newest next }
{
    match newest {
        Some(Newest::LastData(number)) if sequence == number => Some(Newest::AllAcknowledged),
        _ => next,
    }
}

/// Whose frame the newest one of the open transfer is after a frame by an end. `None` once a frame
/// came out of its turn, until the next initiate request.
#[tactic(auto, unfolding(crate::specs::NewestFrames::newest_with))]
pub fn newest_with(side: Side, what: What, frame: &Frame, newest: Option<Newest>) -> Option<Newest>
    ensures { result ≡ newest_with side what frame.now newest }
{
    let next = newest_after(side, what, newest);
    match (side, what) {
        (Side::Server, What::Segment { number }) => last_after(number, byte_at(frame, 0), next),
        (Side::Client, What::Part) => all_after(byte_at(frame, 1), newest, next),
        _ => next,
    }
}
