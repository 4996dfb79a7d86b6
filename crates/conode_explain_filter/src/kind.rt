//! Kinds of frames.

ghost use Rattle.std.specs.Prelude.{◌≡◌};
ghost use Rattle.conode_explain_filter.specs.Kinds.{kind_at, kind_in};

/// A kind of frames, by the service that they are of.
#[derive(Clone, Copy, PartialEq, Eq)]
pub enum Kind {
    /// SDO, both ways.
    Sdo,
    /// PDOs, those of the pre-defined connection set and those of data sheets.
    Pdo,
    /// EMCY.
    Emergency,
    /// NMT commands.
    Nmt,
    /// Error control: boot-up, heartbeat and node guarding.
    Heartbeat,
    /// SYNC.
    Sync,
    /// Every other one: TIME, LSS, frames with identifiers of 29 bits, CAN FD and error frames.
    Other,
}

impl Kind {
    /// The kind of frames that an identifier of 11 bits has in the pre-defined connection set (CiA
    /// 301, 7.3.3).
    pub(crate) fn at(id: u16) -> Kind
        ensures { result ≡ kind_at id }
    {
        match id {
            0x000 => Kind::Nmt,
            0x080 => Kind::Sync,
            0x081..=0x0FF => Kind::Emergency,
            0x181..=0x57F if id % 128 != 0 => Kind::Pdo,
            0x581..=0x5FF | 0x601..=0x67F => Kind::Sdo,
            0x701..=0x77F => Kind::Heartbeat,
            _ => Kind::Other,
        }
    }

    /// The kind that a word names.
    pub(crate) fn read(word: &str) -> Option<Kind>
        ensures { result ≡ kind_in word.now }
    {
        match word {
            "sdo" => Some(Kind::Sdo),
            "pdo" => Some(Kind::Pdo),
            "emcy" => Some(Kind::Emergency),
            "nmt" => Some(Kind::Nmt),
            "heartbeat" => Some(Kind::Heartbeat),
            "sync" => Some(Kind::Sync),
            "other" => Some(Kind::Other),
            _ => None,
        }
    }
}
