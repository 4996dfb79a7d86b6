//! Node guarding, as the guarding requests for a node and its frames of error control show it.

ghost use Rattle.std.specs.Prelude.{◌≡◌};
ghost use Rattle.conode_stats_counts.specs.Guardings.{
  answered_with,
  asked_with,
  control_booted,
  control_by,
  control_timed,
  first_asked,
  timed_with,
};

/// What a frame of error control is (CiA 301, 7.2.8.3.2), by its toggle bit, the guarding requests, the
/// frame before it and 1017:00.
#[derive(Clone, Copy)]
pub enum ErrorControl {
    /// There is none; or a heartbeat, and since then 1017:00 was shown to be 0.
    Nothing,
    /// A heartbeat, as it seems: without the toggle bit, and no request came since the frame before it,
    /// which is neither `TimedHeartbeat` nor `Answer(true)`.
    Heartbeat,
    /// A heartbeat, as it seems: without the toggle bit, and a request came since the frame before it, which
    /// is `Heartbeat`.
    AskedHeartbeat,
    /// A heartbeat: the newest transfer that shows 1017:00 shows that it isn't 0, and no toggle bit came
    /// since. The transfer may be newer than the frame, and then there may be none.
    TimedHeartbeat,
    /// A guarding answer perhaps: without the toggle bit, and a request came since the frame before it, which
    /// is `Nothing`, `AskedHeartbeat`, `Requested` or `Answer(false)`.
    Requested,
    /// A guarding answer: it has the toggle bit (`true`), or it hasn't, and the frame before it has
    /// (`false`). Also `false` once a boot-up follows it: the toggle bit begins anew there.
    Answer(bool),
}

/// What a node's newest frame of error control is, and which guarding request it didn't answer (CiA
/// 301, 7.2.8.3.2.1).
#[derive(Clone, Copy)]
pub struct Guarding {
    /// What its newest frame of error control is, boot-up messages left out.
    pub control: ErrorControl,
    /// The stamp of the first guarding request since its newest frame of error control, in
    /// microseconds; `None` if there is none.
    pub asked: Option<u64>,
}

// the older one
fn first_asked(asked: Option<u64>, micros: u64) -> Option<u64>
    ensures { result ≡ first_asked asked micros }
{
    match asked {
        Some(first) => Some(first),
        None => Some(micros),
    }
}

impl ErrorControl {
    // a frame with this toggle bit after this one; whether a request came between them
    fn next(self, toggle: bool, asked: bool) -> ErrorControl
        ensures { result ≡ control_by toggle asked self }
    {
        match self {
            _ if toggle => ErrorControl::Answer(true),
            ErrorControl::Answer(true) => ErrorControl::Answer(false),
            ErrorControl::TimedHeartbeat => ErrorControl::TimedHeartbeat,
            _ if !asked => ErrorControl::Heartbeat,
            ErrorControl::Heartbeat => ErrorControl::AskedHeartbeat,
            _ => ErrorControl::Requested,
        }
    }

    // once a boot-up follows it
    fn booted(self) -> ErrorControl
        ensures { result ≡ control_booted self }
    {
        match self {
            ErrorControl::Answer(_) => ErrorControl::Answer(false),
            other => other,
        }
    }

    // once this producer heartbeat time is known
    fn timed(self, time: u16) -> ErrorControl
        ensures { result ≡ control_timed time self }
    {
        match self {
            _ if time > 0 => ErrorControl::TimedHeartbeat,
            ErrorControl::Heartbeat | ErrorControl::AskedHeartbeat | ErrorControl::TimedHeartbeat =>
                ErrorControl::Nothing,
            other => other,
        }
    }
}

impl Guarding {
    /// Notes a guarding request.
    pub(crate) fn ask(&mut self, micros: u64)
        ensures { self.new ≡ asked_with micros self.old }
    {
        self.asked = first_asked(self.asked, micros);
    }

    /// Notes a frame of error control, which may be a boot-up message; `toggle`: whether its toggle bit is
    /// set.
    pub(crate) fn hear(&mut self, boots: bool, toggle: bool)
        ensures { self.new ≡ answered_with boots toggle self.old }
    {
        self.control = if boots {
            self.control.booted()
        } else {
            self.control.next(toggle, self.asked.is_some())
        };
        self.asked = None;
    }

    /// Notes that a transfer shows the producer heartbeat time, in ms.
    pub(crate) fn show(&mut self, time: u16)
        ensures { self.new ≡ timed_with time self.old }
    {
        self.control = self.control.timed(time);
    }
}
