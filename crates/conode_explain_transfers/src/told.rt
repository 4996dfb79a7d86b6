//! What the channels say about a frame.

ghost use Rattle.std.specs.Prelude.{◌≡◌};
ghost use Rattle.conode_explain_transfers.specs.Tracks.{shown_what, told_by};

use crate::ended::shown_end;
use crate::{Ended, Ending, Heard, Revealed, Side, What};
use co_value::Key;

/// What a frame is in the transfers of its channel.
#[derive(Clone, Copy)]
pub struct Part {
    /// The end that sent it.
    pub side: Side,
    /// What it is.
    pub what: What,
    /// The open transfer's entry; `None` where the frame has a key of its own, and once the client
    /// went on before the response to initiate, as the transfer may be none then.
    pub of: Option<Key>,
}

/// What the channels say about a frame: its node, what it is in the transfers of the node's
/// channel, and the transfer that ended with it.
#[derive(Drop)]
pub struct Told {
    /// The node-ID of the server.
    pub node: u8,
    /// What it is in the transfers; `None` for a boot-up.
    pub part: Option<Part>,
    /// The transfer that the client has left before it, as it reveals.
    pub left: Option<Ended>,
    /// The transfer that ended with it.
    pub ended: Option<Ended>,
    /// An entry of which nothing is known any more: a download that isn't known is accepted.
    pub unclear: Option<Key>,
}

// what a frame is; where it looks like an initiate request or an abort, and is a segment, that
fn shown_what(what: What, ended: &Option<Ended>) -> What
    ensures { result ≡ shown_what what ended.now }
{
    match ended {
        Some(ended) => match ended.ending {
            Ending::NotFollowed { next: Some(number) } => What::Segment { number },
            _ => what,
        },
        None => what,
    }
}

impl Told {
    /// What is said about a frame of an end of a node's channel, which reveals this, and of which
    /// the channel heard this.
    pub fn by(side: Side, node: u8, revealed: Revealed, heard: Heard) -> Told
        ensures { result ≡ told_by side node revealed heard }
    {
        let part = Part {
            side,
            what: shown_what(heard.what, &heard.ended),
            of: heard.of,
        };
        Told {
            node,
            part: Some(part),
            left: revealed.left,
            ended: shown_end(heard.ended),
            unclear: revealed.unclear,
        }
    }
}
