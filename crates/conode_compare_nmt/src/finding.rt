//! The kinds of differences.

ghost use Rattle.std.specs.Prelude.{◌≡◌};
ghost use Rattle.conode_compare_nmt.specs.States.{is_operational};

use co_value::Key;
use conode_compare_pdos::Deviation;
use conode_compare_transfers::Breach;
use conode_compare_values::{HeldMismatch, Mismatch};

/// The NMT state that a device is in, as commands and its own frames have it (CiA 301, 7.3.2.2).
#[derive(Clone, Copy)]
pub enum NmtState {
    /// Nothing shows it.
    Unknown,
    /// A reset was commanded, and the boot-up hasn't come.
    Initialising,
    PreOperational,
    Operational,
    Stopped,
}

impl NmtState {
    /// Whether it is operational.
    pub fn is_operational(self) -> bool
        ensures { result ≡ is_operational self }
    {
        matches!(self, NmtState::Operational)
    }
}

/// A difference between what a device did and what CiA 301 prescribes for its data sheet.
#[derive(Clone, Copy)]
pub enum Finding {
    /// `boot-missing`: after a reset command it sends other frames than a boot-up, so many
    /// microseconds after the command.
    BootMissing(u64),
    /// `second-sender`: two boot-ups, so many microseconds apart, with nothing between them.
    SecondBootUp(u64),
    /// `heartbeat-length`: a heartbeat of so many bytes, not of one.
    HeartbeatLength(u8),
    /// `heartbeat-state`: a heartbeat with a byte that is no NMT state.
    NoState(u8),
    /// `heartbeat-state`: a heartbeat with this state, which the device can't have reached from the
    /// other one.
    WrongState(NmtState, NmtState),
    /// `second-sender`: heartbeats with these two states in turn, the first of which the device
    /// can't have reached from the other one, and no command.
    TwoStates(NmtState, NmtState),
    /// `heartbeat-late`: so many microseconds since the last heartbeat, and 1017:00 has so many ms.
    HeartbeatLate(u64, u16),
    /// `heartbeat-late`: so many microseconds since the boot-up.
    LateAfterBootUp(u64, u16),
    /// `heartbeat-late`: so many microseconds since a transfer of 1017:00 ended.
    LateAfterTransfer(u64, u16),
    /// `heartbeat-off`: heartbeats one after another, and a transfer showed that 1017:00 has 0.
    HeartbeatOff,
    /// `emcy-length`: an EMCY of so many bytes, not of eight.
    EmergencyLength(u8),
    /// `emcy-state`: an EMCY while stopped.
    EmergencyStopped,
    /// `emcy-register`: an EMCY with this code and an error register without bit 0.
    EmergencyRegister(u16, u8),
    /// `emcy-inhibit`: two EMCY so many microseconds apart, and 1015:00 has so many 100 µs.
    EmergencyInhibit(u64, u16),
    /// `no-answer`: a request for this entry isn't answered in time; it came so many microseconds
    /// ago.
    NoAnswer(Key, u64),
    /// `second-sender`: an answer without a request.
    Unasked,
    /// `answer-key`: the answer to the request for this entry has another multiplexer.
    AnswerKey(Key),
    /// `answer-form`: the protocol has no such answer to the request for this entry.
    AnswerForm(Key),
    /// `answer-state`: a request for this entry, which came while the device was stopped, is
    /// answered.
    AnswerStopped(Key),
    /// `answer-toggle`, `answer-form`, `answer-size`, `answer-crc`, `abort-key`, `abort-early`: a
    /// difference in an open transfer.
    Transfer(Breach),
    /// `value-length`, `value-const`, `access-read`, `access-write`, `access-limits`: a transfer
    /// ended otherwise than the data sheet has its entry.
    Value(Mismatch),
    /// `value-held`: an upload shows another number than the last download wrote.
    Held(HeldMismatch),
    /// A difference of the TPDO with this number, from 1 on.
    Pdo(u8, Deviation),
}

/// What a frame of a device shows that is no difference.
#[derive(Clone, Copy)]
pub enum Remark {
    /// A boot-up of a device that was seen before, without a reset command since.
    Restarted,
    /// A heartbeat so many microseconds after the last one, the boot-up, or the request to write
    /// 1017:00, which has so many ms.
    EarlyHeartbeat(u64, u16),
}
