//! A warning, and its kinds.

use crate::known_key::KnownKey;

/// What is suspicious (CiA 306-1, CiA 301).
#[derive(Clone, Copy)]
pub enum WarningKind {
    /// SubNumber isn't the number of the object's sub-index sections.
    SubNumber,
    /// A constant sub-index 0 isn't the highest sub-index of its object.
    SubIndex0,
    /// A VAR or a DOMAIN has sub-index sections.
    VarSubIndices,
    /// 1000h or 1001h isn't a VAR, or 1018h isn't a RECORD with sub-index 1, the vendor-ID.
    MandatoryForm,
    /// FileInfo is missing, or lacks a key that has to be there: of each, in the order of
    /// `FILE_KEYS`, whether it is missing.
    FileInfoKeys([bool; 10]),
    /// DeviceInfo is missing, or lacks a key that has to be there: the same of `DEVICE_KEYS`.
    DeviceInfoKeys([bool; 22]),
    /// NrOfRXPDO or NrOfTXPDO isn't the number of PDOs.
    PdoCount,
    /// An object is in another list than the one for its index.
    WrongList,
    /// A key of a list is past its SupportedObjects.
    UncountedKey,
    /// An object section that no object list names.
    Unlisted,
    /// VendorNumber, ProductNumber or RevisionNumber isn't that of the identity object, at this
    /// sub-index: 1, 2 or 3.
    IdentityNumber(u8),
    /// A COB-ID that depends on the node-ID by default is a fixed number.
    FixedCobId,
    /// `$NODEID` comes after the number of a formula.
    NodeIdPlace,
    /// A sum with `$NODEID` is outside its type or its limits for every node-ID.
    NodeIdSum,
    /// A HighLimit without a LowLimit that is -1 by the sign of its type.
    NegativeLimit,
    /// A transmission type or a synchronous counter overflow value that CiA 301 reserves.
    ReservedValue,
    /// An access other than CiA 301 has it for the entry.
    WrongAccess,
    /// A data type other than CiA 301 has it for the entry.
    WrongType,
    /// A section that nothing reads, with a name that is like one of the standard.
    MisspeltSection,
    /// A key that the standard doesn't have, and that is like one of its own.
    MisspeltKey(KnownKey),
    /// A COB-ID has the identifier of another one before it, for this node-ID.
    SharedCobId(u8),
    /// A synchronous TPDO has an inhibit time.
    InhibitTime,
    /// The heartbeat consumer expects the heartbeat of its own node.
    OwnHeartbeat,
    /// The heartbeat consumer expects the heartbeat of a node twice; a sum with `$NODEID` is
    /// for this node-ID.
    HeartbeatTwice(Option<u8>),
    /// The device has neither a heartbeat nor node guarding.
    NoErrorControl,
    /// A line of more than 255 characters.
    LongLine,
    /// Bytes above 7Fh, in UTF-8.
    Utf8,
    /// Bytes above 7Fh that aren't UTF-8.
    NotAscii,
    /// NodeID of a device configuration file isn't 1 to 127.
    NodeId,
    /// The indices of a list don't increase.
    ListOrder,
    /// An object, or a sub-index of an object, has the name of one before it.
    EqualNames,
    /// An object or a sub-index without a name.
    MissingName,
    /// A key that the standard doesn't have.
    UnknownKey,
    /// A date or a time of FileInfo in another format.
    DateFormat,
    /// Lines that end with CR and LF, and lines that end with LF alone.
    LineEnds,
}

/// What is suspicious, and where.
#[derive(Clone, Copy)]
pub struct Warning {
    pub kind: WarningKind,
    /// From 1; 0 where no line is to blame.
    pub line: usize,
}
