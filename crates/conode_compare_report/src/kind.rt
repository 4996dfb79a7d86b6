//! The kinds of differences.

ghost use Rattle.std.specs.Prelude.{◌≡◌};
ghost use Rattle.conode_compare_report.specs.Kinds.{kind_name, kind_number, kind_of, kind_rule};
ghost use Rattle.conode_compare_report.specs.Kinds.{of_breach, of_deviation, of_mismatch};

use conode_compare_nmt::Finding;
use conode_compare_pdos::Deviation;
use conode_compare_transfers::Breach;
use conode_compare_values::Mismatch;

/// A kind of difference, in the order of the table in docs/COMPARE.md.
#[derive(Clone, Copy)]
pub enum Kind {
    HeartbeatLate,
    HeartbeatOff,
    HeartbeatState,
    HeartbeatLength,
    PdoLength,
    PdoState,
    PdoSync,
    PdoInhibit,
    PdoLate,
    BootMissing,
    SecondSender,
    EmergencyLength,
    EmergencyState,
    EmergencyRegister,
    EmergencyInhibit,
    NoAnswer,
    AnswerKey,
    AnswerForm,
    AnswerToggle,
    AnswerSize,
    AnswerCrc,
    AnswerState,
    AbortKey,
    AbortEarly,
    ValueLength,
    ValueConst,
    ValueHeld,
    AccessRead,
    AccessWrite,
    AccessLimits,
}

/// Each kind once, in this order.
pub(crate) const KINDS: [Kind; 30] = [
    Kind::HeartbeatLate,
    Kind::HeartbeatOff,
    Kind::HeartbeatState,
    Kind::HeartbeatLength,
    Kind::PdoLength,
    Kind::PdoState,
    Kind::PdoSync,
    Kind::PdoInhibit,
    Kind::PdoLate,
    Kind::BootMissing,
    Kind::SecondSender,
    Kind::EmergencyLength,
    Kind::EmergencyState,
    Kind::EmergencyRegister,
    Kind::EmergencyInhibit,
    Kind::NoAnswer,
    Kind::AnswerKey,
    Kind::AnswerForm,
    Kind::AnswerToggle,
    Kind::AnswerSize,
    Kind::AnswerCrc,
    Kind::AnswerState,
    Kind::AbortKey,
    Kind::AbortEarly,
    Kind::ValueLength,
    Kind::ValueConst,
    Kind::ValueHeld,
    Kind::AccessRead,
    Kind::AccessWrite,
    Kind::AccessLimits,
];

/// Their names, in this order.
static NAMES: [&str; 30] = [
    "heartbeat-late",
    "heartbeat-off",
    "heartbeat-state",
    "heartbeat-length",
    "pdo-length",
    "pdo-state",
    "pdo-sync",
    "pdo-inhibit",
    "pdo-late",
    "boot-missing",
    "second-sender",
    "emcy-length",
    "emcy-state",
    "emcy-register",
    "emcy-inhibit",
    "no-answer",
    "answer-key",
    "answer-form",
    "answer-toggle",
    "answer-size",
    "answer-crc",
    "answer-state",
    "abort-key",
    "abort-early",
    "value-length",
    "value-const",
    "value-held",
    "access-read",
    "access-write",
    "access-limits",
];

/// What CiA 301 prescribes of each, in this order.
static RULES: [&str; 30] = [
    "a heartbeat comes within the producer heartbeat time, 1017:00 (CiA 301, 7.2.8.3.2)",
    "no heartbeat comes while the producer heartbeat time, 1017:00, is 0 (CiA 301, 7.5.2.20)",
    "a heartbeat has the NMT state that the commands gave (CiA 301, 7.3.2.2)",
    "a frame of error control has one byte (CiA 301, 7.2.8.3.2)",
    "a TPDO has as many bytes as its mapping (CiA 301, 7.5.2.38)",
    "a TPDO is sent while operational only (CiA 301, 7.3.2.2)",
    "a TPDO of type n up to 240 is sent at each n-th SYNC, of type 0 after one (CiA 301, 7.5.2.37)",
    "two frames of a TPDO are at least its inhibit time apart (CiA 301, 7.5.2.37)",
    "a TPDO is sent when its event timer has passed (CiA 301, 7.5.2.37)",
    "after a reset a boot-up comes before any other frame (CiA 301, 7.3.2.2)",
    "one device has the node-ID, and it answers requests only (CiA 301, 7.2.4.3)",
    "an EMCY has eight bytes (CiA 301, 7.2.7)",
    "no EMCY is sent in the NMT state stopped (CiA 301, 7.3.2.2)",
    "with any error bit 0 of the error register is set (CiA 301, 7.5.2.2)",
    "two EMCY are at least the inhibit time 1015:00 apart (CiA 301, 7.5.2.18)",
    "the server answers each request of an SDO client (CiA 301, 7.2.4.3)",
    "an answer has the multiplexer of its request (CiA 301, 7.2.4.3)",
    "an answer is one that the protocol of its request has (CiA 301, 7.2.4.3)",
    "a segment, or its confirmation, has the toggle bit awaited (CiA 301, 7.2.4.3)",
    "an upload has as many bytes as it indicates (CiA 301, 7.2.4.3.6)",
    "a block upload ends with the CRC of its bytes (CiA 301, 7.2.4.3.16)",
    "no SDO is served in the NMT state stopped (CiA 301, 7.3.2.2)",
    "an abort has the multiplexer of its transfer (CiA 301, 7.2.4.3.17)",
    "no transfer is aborted as timed out before its timeout (CiA 301, 7.2.4.3.17)",
    "a number has as many bytes as its data type (CiA 301, 7.4.7.1)",
    "a constant entry has the value of the data sheet (CiA 301, 7.4)",
    "an entry that is named as held keeps what is written to it",
    "an entry that is readable can be read, one that is write only can't (CiA 301, 7.4)",
    "an entry that is read only isn't written (CiA 301, 7.2.4.3.17)",
    "a value outside the limits is refused (CiA 301, 7.2.4.3.17)",
];

/// How often a kind was found, and how often it could have been.
#[derive(Clone, Copy)]
pub struct Counted {
    pub kind: Kind,
    /// Its differences, up to 2^64 - 1.
    pub found: u64,
    /// The frames at which such a difference could have shown, up to 2^64 - 1: at least one if one
    /// was found.
    pub occasions: u64,
}

fn of_deviation(deviation: Deviation) -> Kind
    ensures { result ≡ of_deviation deviation }
{
    match deviation {
        Deviation::Length(_, _) => Kind::PdoLength,
        Deviation::NotOperational => Kind::PdoState,
        Deviation::WithoutSync | Deviation::FewSyncs(_, _) => Kind::PdoSync,
        Deviation::Inhibit(_, _) => Kind::PdoInhibit,
        Deviation::Timer(_, _) => Kind::PdoLate,
    }
}

fn of_breach(breach: Breach) -> Kind
    ensures { result ≡ of_breach breach }
{
    match breach {
        Breach::Toggle(_) => Kind::AnswerToggle,
        Breach::Form(_) => Kind::AnswerForm,
        Breach::AbortKey(_) => Kind::AbortKey,
        Breach::Size(_, _, _) => Kind::AnswerSize,
        Breach::Crc(_, _, _) => Kind::AnswerCrc,
        Breach::Early(_, _, _) => Kind::AbortEarly,
    }
}

fn of_mismatch(mismatch: Mismatch) -> Kind
    ensures { result ≡ of_mismatch mismatch }
{
    match mismatch {
        Mismatch::ValueLength(_, _, _) => Kind::ValueLength,
        Mismatch::ValueConst(_, _, _) | Mismatch::ConstText(_) => Kind::ValueConst,
        Mismatch::ReadRefused(_, _) | Mismatch::ReadServed(_) => Kind::AccessRead,
        Mismatch::Written(_) => Kind::AccessWrite,
        Mismatch::AboveLimit(_) | Mismatch::BelowLimit(_) | Mismatch::BeyondRoom(_, _, _) => {
            Kind::AccessLimits
        }
    }
}

impl Kind {
    /// The kind of a difference.
    pub fn of(finding: Finding) -> Kind
        ensures { result ≡ kind_of finding }
    {
        match finding {
            Finding::BootMissing(_) => Kind::BootMissing,
            Finding::SecondBootUp(_) | Finding::TwoStates(_, _) | Finding::Unasked => {
                Kind::SecondSender
            }
            Finding::HeartbeatLength(_) => Kind::HeartbeatLength,
            Finding::NoState(_) | Finding::WrongState(_, _) => Kind::HeartbeatState,
            Finding::HeartbeatLate(_, _)
            | Finding::LateAfterBootUp(_, _)
            | Finding::LateAfterTransfer(_, _) => Kind::HeartbeatLate,
            Finding::HeartbeatOff => Kind::HeartbeatOff,
            Finding::EmergencyLength(_) => Kind::EmergencyLength,
            Finding::EmergencyStopped => Kind::EmergencyState,
            Finding::EmergencyRegister(_, _) => Kind::EmergencyRegister,
            Finding::EmergencyInhibit(_, _) => Kind::EmergencyInhibit,
            Finding::NoAnswer(_, _) => Kind::NoAnswer,
            Finding::AnswerKey(_) => Kind::AnswerKey,
            Finding::AnswerForm(_) => Kind::AnswerForm,
            Finding::AnswerStopped(_) => Kind::AnswerState,
            Finding::Transfer(breach) => of_breach(breach),
            Finding::Value(mismatch) => of_mismatch(mismatch),
            Finding::Held(_) => Kind::ValueHeld,
            Finding::Pdo(_, deviation) => of_deviation(deviation),
        }
    }

    /// Its name: `heartbeat-late`.
    pub fn name(self) -> &'static str
        ensures { result.now ≡ kind_name self }
    {
        NAMES[self as usize]
    }

    /// What CiA 301 prescribes, in one sentence with its section.
    pub fn rule(self) -> &'static str
        ensures { result.now ≡ kind_rule self }
    {
        RULES[self as usize]
    }

    /// Its place in the table, from 0 on.
    pub fn number(self) -> usize
        ensures { result ≡ kind_number self }
    {
        self as usize
    }
}
