//! Errors of the device.

/// An error that the device raises (CiA 301, 7.2.7.1): its bits are set in the error register
/// 1001h, its code goes to the pre-defined error field 1003h, and an emergency is queued.
#[derive(Clone, Copy)]
pub struct DeviceError {
    /// The emergency error code.
    pub code: u16,
    /// The bits that it sets in the error register 1001h.
    pub bits: u8,
    /// The manufacturer-specific error code, five bytes.
    pub manufacturer: [u8; 5],
}

impl DeviceError {
    /// The heartbeat of another node is lost: 8130h.
    pub const HEARTBEAT_LOST: DeviceError = DeviceError {
        code: 0x8130,
        bits: 0x11,
        manufacturer: [0; 5],
    };
    /// The data of an RPDO have a value outside the limits of its entry: 8200h.
    pub const VALUE_OUTSIDE_LIMITS: DeviceError = DeviceError {
        code: 0x8200,
        bits: 0x11,
        manufacturer: [0; 5],
    };
    /// A frame of an RPDO is shorter than its mapping and isn't processed: 8210h.
    pub const PDO_TOO_SHORT: DeviceError = DeviceError {
        code: 0x8210,
        bits: 0x11,
        manufacturer: [0; 5],
    };
    /// A frame of an RPDO is longer than its mapping: 8220h.
    pub const PDO_TOO_LONG: DeviceError = DeviceError {
        code: 0x8220,
        bits: 0x11,
        manufacturer: [0; 5],
    };
    /// A SYNC has an unexpected length: 8240h.
    pub const UNEXPECTED_SYNC_LENGTH: DeviceError = DeviceError {
        code: 0x8240,
        bits: 0x11,
        manufacturer: [0; 5],
    };
}
