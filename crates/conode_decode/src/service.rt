//! The services that have an identifier for each node.

ghost use Rattle.std.specs.Prelude.{◌≡◌};
ghost use Rattle.conode_decode.specs.Services.{service_at};

/// A service of a node (CiA 301, 7.3.3, pre-defined connection set).
#[derive(Clone, Copy)]
pub(crate) enum Service {
    /// EMCY write, 81h to FFh.
    Emergency,
    /// A PDO that the node transmits, 1 to 4.
    Tpdo(u8),
    /// A PDO that the node receives, 1 to 4.
    Rpdo(u8),
    /// SDO server to client, 581h to 5FFh.
    SdoAnswer,
    /// SDO client to server, 601h to 67Fh.
    SdoRequest,
    /// Boot-up and heartbeat, 701h to 77Fh.
    ErrorControl,
}

impl Service {
    /// The service of an identifier without its node-ID.
    pub(crate) fn at(base: u16) -> Option<Service>
        ensures { result ≡ service_at base }
    {
        match base {
            0x080 => Some(Service::Emergency),
            0x180 => Some(Service::Tpdo(1)),
            0x200 => Some(Service::Rpdo(1)),
            0x280 => Some(Service::Tpdo(2)),
            0x300 => Some(Service::Rpdo(2)),
            0x380 => Some(Service::Tpdo(3)),
            0x400 => Some(Service::Rpdo(3)),
            0x480 => Some(Service::Tpdo(4)),
            0x500 => Some(Service::Rpdo(4)),
            0x580 => Some(Service::SdoAnswer),
            0x600 => Some(Service::SdoRequest),
            0x700 => Some(Service::ErrorControl),
            _ => None,
        }
    }
}
