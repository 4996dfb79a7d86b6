//! How `replay` and `loop` build a device.

use crate::dictionary::limits_of;
use co_node::Config;
use conode_words::DeviceWords;

/// The rooms and the SDO timeout of a device.
pub(crate) fn config_of(device: &DeviceWords) -> Config<'static> {
    Config {
        limits: limits_of(&device.dictionary),
        time: device.time,
    }
}
