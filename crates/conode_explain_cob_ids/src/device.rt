//! What is known of a device.

ghost use Rattle.std.specs.Prelude.{◌≡◌};
ghost use Rattle.std.specs.Option.{option_copied};
ghost use Rattle.co_sheet_changes.specs.Names.{names_view};
ghost use Rattle.conode_explain_cob_ids.specs.Buses.{bus_view};
ghost use Rattle.conode_explain_cob_ids.specs.Devices.{
  device_at,
  device_view,
  is_drive_at,
  is_node_drive,
  type_of_device,
  type_shown,
};

use crate::bus::Bus;
use crate::origin::{number_by, value_at};
use crate::sheet::number_of;
use co_profile::{DEVICE_TYPE, keys};
use co_sheet_changes::Names;
use conode_explain_entries::PdoState;
use conode_explain_services::is_drive;

/// What is known of a device.
#[derive(Clone, Copy)]
pub struct Device<'s, 'a> {
    /// Where the names of its entries come from.
    pub names: Names<'s, 'a>,
    /// Its device type, 1000:00, if the recording shows it.
    pub shown_type: Option<u32>,
}

// the device type that the recording shows, else the one that the sheet begins with
fn type_of_device(shown: Option<u32>, names: Names<'_, '_>, node: u8) -> Option<u32>
    ensures { result ≡ type_of_device shown (names_view names.entry) node }
{
    if let Some(shown) = shown {
        return Some(shown);
    }
    match names.entry(node, keys::DEVICE_TYPE) {
        Some(row) => number_of(row.default),
        None => None,
    }
}

/// Whether a node with such a device is a drive (CiA 402), by its device type (CiA 301, 7.5.2.1):
/// the one that the recording shows, else the one that its data sheet begins with.
#[tactic(auto, unfolding(crate::specs::Devices::is_node_drive))]
pub fn is_node_drive(device: Device<'_, '_>, node: u8) -> bool
    ensures { result ≡ is_node_drive (device_view device.entry) node }
{
    match type_of_device(device.shown_type, device.names, node) {
        Some(device_type) => is_drive(device_type),
        None => false,
    }
}

fn type_shown(state: Option<&PdoState>) -> Option<u32>
    ensures { result ≡ type_shown (option_copied state.entry) }
{
    match state {
        Some(state) => number_by(None, value_at(&state.now.mapping, 0)),
        None => None,
    }
}

impl<'s, 'a> Bus<'_, '_, '_, 's, 'a> {
    /// What is known of a node's device.
    pub fn device(self, node: u8) -> Device<'s, 'a>
        ensures { device_view result ≡ device_at (bus_view self.entry) node }
    {
        Device {
            names: self.names(node),
            shown_type: type_shown(self.state(node, DEVICE_TYPE)),
        }
    }

    /// Whether a node is a drive (CiA 402), by its device type.
    pub fn is_drive(self, node: u8) -> bool
        ensures { result ≡ is_drive_at (bus_view self.entry) node }
    {
        is_node_drive(self.device(node), node)
    }
}
