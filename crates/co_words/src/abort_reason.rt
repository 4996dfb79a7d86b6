//! Why an SDO transfer was aborted, in words.

ghost use Rattle.std.specs.Prelude.{◌≡◌, [], IfSome};
ghost use Rattle.co_words.specs.declared.abort_reason.AbortReason.{AbortReason};
ghost use Rattle.co_words.specs.AbortReasons.{code_of, text_of};

/// What an SDO abort code means (CiA 301, 7.2.4.3.17, table 22).
#[derive(Clone, Copy)]
pub enum AbortReason {
    /// 05030000h: the toggle bit of a segment isn't the awaited one.
    ToggleNotAlternated,
    /// 05040000h: the transfer timed out.
    TimedOut,
    /// 05040001h: the command specifier is unknown, or not awaited now.
    UnknownCommand,
    /// 05040002h: the block size isn't 1 to 127.
    InvalidBlockSize,
    /// 05040003h: an acknowledge names a segment that wasn't sent.
    InvalidSequenceNumber,
    /// 05040004h: the CRC of a block transfer is wrong.
    CrcError,
    /// 05040005h: out of memory: no room for the value.
    OutOfMemory,
    /// 06010000h: this access isn't supported.
    UnsupportedAccess,
    /// 06010001h: a read of an entry that is write only.
    WriteOnly,
    /// 06010002h: a write of an entry that is read only.
    ReadOnly,
    /// 06020000h: no such object.
    ObjectMissing,
    /// 06040041h: the entry can't be mapped into this PDO.
    NotMappable,
    /// 06040042h: the mapped entries are longer than 8 bytes.
    MappingTooLong,
    /// 06040043h: the parameter contradicts another one.
    ParameterIncompatible,
    /// 06040047h: the parameter contradicts something in the device.
    DeviceIncompatible,
    /// 06060000h: a hardware error.
    HardwareError,
    /// 06070010h: wrong data type or length.
    LengthMismatch,
    /// 06070012h: the value is too long.
    TooLong,
    /// 06070013h: the value is too short.
    TooShort,
    /// 06090011h: no such sub-index.
    SubIndexMissing,
    /// 06090030h: the value isn't allowed.
    InvalidValue,
    /// 06090031h: the value is above the high limit.
    AboveHighLimit,
    /// 06090032h: the value is below the low limit.
    BelowLowLimit,
    /// 06090036h: the maximum is less than the minimum.
    LimitsCrossed,
    /// 060A0023h: no SDO connection is left.
    NoConnection,
    /// 08000000h: a general error.
    GeneralError,
    /// 08000020h: the value can't be transferred or stored.
    NotStorable,
    /// 08000021h: the value can't be transferred or stored, for local control.
    NotStorableByControl,
    /// 08000022h: the value can't be transferred or stored in the device's present state.
    NotInThisState,
    /// 08000023h: there is no object dictionary.
    NoDictionary,
    /// 08000024h: no data is there.
    NoValue,
}

impl AbortReason {
    /// The meaning of this code; `None` for a code that the standard doesn't have.
    pub fn from_code(code: u32) -> Option<AbortReason>
        ensures found { IfSome result (λ reason. code_of reason ≡ code) }
        ensures only { (reason : AbortReason) → code_of reason ≡ code → result ≡ Some reason }
    {
        match code {
            0x0503_0000 => Some(AbortReason::ToggleNotAlternated),
            0x0504_0000 => Some(AbortReason::TimedOut),
            0x0504_0001 => Some(AbortReason::UnknownCommand),
            0x0504_0002 => Some(AbortReason::InvalidBlockSize),
            0x0504_0003 => Some(AbortReason::InvalidSequenceNumber),
            0x0504_0004 => Some(AbortReason::CrcError),
            0x0504_0005 => Some(AbortReason::OutOfMemory),
            0x0601_0000 => Some(AbortReason::UnsupportedAccess),
            0x0601_0001 => Some(AbortReason::WriteOnly),
            0x0601_0002 => Some(AbortReason::ReadOnly),
            0x0602_0000 => Some(AbortReason::ObjectMissing),
            0x0604_0041 => Some(AbortReason::NotMappable),
            0x0604_0042 => Some(AbortReason::MappingTooLong),
            0x0604_0043 => Some(AbortReason::ParameterIncompatible),
            0x0604_0047 => Some(AbortReason::DeviceIncompatible),
            0x0606_0000 => Some(AbortReason::HardwareError),
            0x0607_0010 => Some(AbortReason::LengthMismatch),
            0x0607_0012 => Some(AbortReason::TooLong),
            0x0607_0013 => Some(AbortReason::TooShort),
            0x0609_0011 => Some(AbortReason::SubIndexMissing),
            0x0609_0030 => Some(AbortReason::InvalidValue),
            0x0609_0031 => Some(AbortReason::AboveHighLimit),
            0x0609_0032 => Some(AbortReason::BelowLowLimit),
            0x0609_0036 => Some(AbortReason::LimitsCrossed),
            0x060A_0023 => Some(AbortReason::NoConnection),
            0x0800_0000 => Some(AbortReason::GeneralError),
            0x0800_0020 => Some(AbortReason::NotStorable),
            0x0800_0021 => Some(AbortReason::NotStorableByControl),
            0x0800_0022 => Some(AbortReason::NotInThisState),
            0x0800_0023 => Some(AbortReason::NoDictionary),
            0x0800_0024 => Some(AbortReason::NoValue),
            _ => None,
        }
    }

    /// The meaning in words, without a stop at the end.
    pub fn text(self) -> &'static str
        ensures { result.now ≡ text_of self }
    {
        match self {
            AbortReason::ToggleNotAlternated => "the toggle bit of a segment isn't the awaited one",
            AbortReason::TimedOut => "the transfer timed out",
            AbortReason::UnknownCommand => "the command specifier is unknown, or not awaited now",
            AbortReason::InvalidBlockSize => "the block size isn't 1 to 127",
            AbortReason::InvalidSequenceNumber => "an acknowledge names a segment that wasn't sent",
            AbortReason::CrcError => "the CRC of a block transfer is wrong",
            AbortReason::OutOfMemory => "out of memory: no room for the value",
            AbortReason::UnsupportedAccess => "this access isn't supported",
            AbortReason::WriteOnly => "a read of an entry that is write only",
            AbortReason::ReadOnly => "a write of an entry that is read only",
            AbortReason::ObjectMissing => "no such object",
            AbortReason::NotMappable => "the entry can't be mapped into this PDO",
            AbortReason::MappingTooLong => "the mapped entries are longer than 8 bytes",
            AbortReason::ParameterIncompatible => "the parameter contradicts another one",
            AbortReason::DeviceIncompatible => "the parameter contradicts something in the device",
            AbortReason::HardwareError => "a hardware error",
            AbortReason::LengthMismatch => "wrong data type or length",
            AbortReason::TooLong => "the value is too long",
            AbortReason::TooShort => "the value is too short",
            AbortReason::SubIndexMissing => "no such sub-index",
            AbortReason::InvalidValue => "the value isn't allowed",
            AbortReason::AboveHighLimit => "the value is above the high limit",
            AbortReason::BelowLowLimit => "the value is below the low limit",
            AbortReason::LimitsCrossed => "the maximum is less than the minimum",
            AbortReason::NoConnection => "no SDO connection is left",
            AbortReason::GeneralError => "a general error",
            AbortReason::NotStorable => "the value can't be transferred or stored",
            AbortReason::NotStorableByControl =>
                "the value can't be transferred or stored, for local control",
            AbortReason::NotInThisState =>
                "the value can't be transferred or stored in the device's present state",
            AbortReason::NoDictionary => "there is no object dictionary",
            AbortReason::NoValue => "no data is there",
        }
    }
}

/// The meaning of an SDO abort code in words; empty for a code that the standard doesn't have.
pub fn abort_text(code: u32) -> &'static str
    ensures known { (reason : AbortReason) → code_of reason ≡ code → result.now ≡ text_of reason }
    ensures unknown { ((reason : AbortReason) → code_of reason ≡ code → ⊥) → result.now ≡ [] }
{
    match AbortReason::from_code(code) {
        Some(reason) => reason.text(),
        None => "",
    }
}
