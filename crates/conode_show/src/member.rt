//! The names of the members of objects in JSON.

ghost use Rattle.std.specs.Prelude.{◌≡◌};
ghost use Rattle.conode_show.specs.Members.{member_name};

/// A member of an object.
#[derive(Clone, Copy)]
pub(crate) enum Member {
    Default,
    Value,
    Low,
    High,
    Index,
    SubIndex,
    Name,
    Type,
    Access,
    Version,
    Node,
    Bits,
    Words,
    Pdo,
    CobId,
    TransmissionType,
    InhibitTime,
    EventTimer,
    Service,
    Number,
    Mapped,
    Mappable,
    Fault,
    Entries,
    Pdos,
    Services,
}

/// Their names, in this order.
const NAMES: [&str; 26] = [
    "default",
    "value",
    "low",
    "high",
    "index",
    "subIndex",
    "name",
    "type",
    "access",
    "version",
    "node",
    "bits",
    "words",
    "pdo",
    "cobId",
    "transmissionType",
    "inhibitTime",
    "eventTimer",
    "service",
    "number",
    "mapped",
    "mappable",
    "fault",
    "entries",
    "pdos",
    "services",
];

impl Member {
    /// Its name.
    pub(crate) fn name(self) -> &'static str
        ensures { result.now ≡ member_name self }
    {
        NAMES[self as usize]
    }
}
