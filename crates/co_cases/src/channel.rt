//! A channel over the dictionary of a data sheet.

use co_dict_list::{Limits, ListStore};
use co_scripts::{DEFAULTS, MANUFACTURER, Served, server_follows, sheet_of};
use co_sheet::read;
use std::alloc::Global;
use std::process::Abort;
use std::test::Fail;

/// A device of a data sheet.
pub(crate) type Device = Served<ListStore>;

/// The device of the sheet at node-ID 5, with room for strings of 12 bytes; `time` is the SDO
/// timeout in ms.
pub(crate) fn device_of(alloc: Global, domains: u16, time: u16) -> Result<Device, Fail> {
    let limits = Limits {
        strings: 12,
        domains,
        own: &[],
    };
    let text = sheet_of(alloc, &[], &[MANUFACTURER], DEFAULTS)?;
    let sheet = read(alloc, text.as_bytes())?;
    let store = ListStore::build(alloc, &sheet, 5, &limits)?;
    Ok(Served::over(alloc, store, time)?)
}

/// Fails unless the device follows a dialogue.
pub(crate) fn shows(rt: &impl Abort, device: &mut Device, dialogue: &str) {
    let shown = server_follows(device, dialogue);
    assert!(rt; shown.is_ok(), "{shown:?} in {dialogue}");
}
