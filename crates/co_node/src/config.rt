//! The configuration of a device that its data sheet doesn't contain.

use co_dict_build::Limits;

/// The configuration of a device that its data sheet doesn't contain, besides the node-ID.
#[derive(Clone, Copy)]
pub struct Config<'a> {
    /// The capacities of strings and domains, in bytes.
    pub limits: Limits<'a>,
    /// The SDO timeout in ms: an SDO channel aborts its transfer if the next request doesn't come
    /// within this time. 0 disables it (CiA 301, 7.2.4.3).
    pub time: u16,
}
