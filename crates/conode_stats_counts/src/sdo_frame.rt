//! SDO frames on the default channels of nodes.

ghost use Rattle.std.specs.Prelude.{◌≡◌, ◌-◌};
ghost use Rattle.conode_stats_counts.specs.Heartbeats.{answer_time, longer, pending_by};

/// An SDO frame on a default channel (CiA 301, 7.2.4.3), as far as it is counted.
#[derive(Clone, Copy)]
pub(crate) enum SdoFrame {
    /// A request of the client.
    Request,
    /// The client aborts a transfer.
    Abort,
    /// A response of the server.
    Response,
}

/// The longer of two times, if there are any.
pub(crate) fn longer(time: Option<u64>, other: Option<u64>) -> Option<u64>
    ensures { result ≡ longer time other }
{
    match (time, other) {
        (Some(time), Some(other)) => Some(time.max(other)),
        (Some(time), None) => Some(time),
        (None, other) => other,
    }
}

impl SdoFrame {
    /// The stamp of the request that awaits its response after this frame, which has this stamp.
    pub(crate) fn pending(self, micros: u64) -> Option<u64>
        ensures { result ≡ pending_by self micros }
    {
        match self {
            SdoFrame::Request => Some(micros),
            _ => None,
        }
    }

    /// How long a request with a stamp waited for this frame, in microseconds, if it is its response.
    pub(crate) fn answer_time(self, pending: Option<u64>, micros: u64) -> Option<u64>
        ensures { result ≡ answer_time pending self micros }
    {
        match (pending, self) {
            (Some(request), SdoFrame::Response) if request <= micros => Some(micros - request),
            _ => None,
        }
    }
}
