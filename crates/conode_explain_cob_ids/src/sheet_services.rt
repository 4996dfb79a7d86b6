//! The COB-IDs of SYNC, TIME and emergencies of a data sheet.

ghost use Rattle.std.specs.Prelude.{◌≡◌, ◌++◌, IfOk, OnOk, filter_map, map};
ghost use Rattle.std.specs.Option.{option_to_list};
ghost use Rattle.co_sheet.specs.SheetViews.{row_view};
ghost use Rattle.co_sheet_changes.specs.Names.{names_view};
ghost use Rattle.conode_explain_cob_ids.specs.SheetServices.{
  is_service_index,
  service_in_row,
  sheet_services,
};

use crate::cob_id::{SheetCobId, cob_id_of};
use co_sheet::EntryRow;
use co_sheet_changes::Names;
use std::alloc::{AllocError, Global};

/// The COB-ID of SYNC, TIME or emergencies, as a data sheet has it.
#[derive(Clone, Copy)]
pub struct SheetService {
    /// The index of its entry: 1005h, 1012h or 1014h.
    pub index: u16,
    /// The COB-ID.
    pub cob_id: SheetCobId,
}

/// Whether an index is that of the COB-ID of SYNC (1005h), TIME (1012h) or emergencies (1014h)
/// (CiA 301, 7.5.2.5, 7.5.2.15 and 7.5.2.17).
pub fn is_service_index(index: u16) -> bool
    ensures { result ≡ is_service_index index }
{
    index == 0x1005 || (index == 0x1012 || index == 0x1014)
}

#[tactic(auto, unfolding(crate::specs::SheetServices::service_in_row))]
fn service_in_row(row: &EntryRow<'_>) -> Option<SheetService>
    ensures { result ≡ service_in_row (row_view row.now) }
{
    if !(row.key.sub == 0 && is_service_index(row.key.index)) {
        return None;
    }
    let Some(cob_id) = cob_id_of(row.default) else {
        return None;
    };
    Some(SheetService {
        index: row.key.index,
        cob_id,
    })
}

fn add_service(
    services: &mut Vec<SheetService>,
    service: Option<SheetService>,
) -> Result<(), AllocError>
    ensures { OnOk result (services.new.items ≡ services.old.items ++ option_to_list service) }
{
    let Some(service) = service else {
        return Ok(());
    };
    match services.push(service) {
        Ok(()) => Ok(()),
        Err(_) => Err(AllocError),
    }
}

fn add_services(services: &mut Vec<SheetService>, rows: &[EntryRow<'_>]) -> Result<(), AllocError>
    ensures { OnOk result (services.new.items ≡ services.old.items
        ++ filter_map service_in_row (map row_view rows.now)) }
{
    for row in rows {
        attempt!(add_service(services, service_in_row(row)));
    }
    Ok(())
}

/// The COB-IDs of SYNC, TIME and emergencies of the data sheet of these names. None without a data
/// sheet. On an `Err` memory ran out.
#[tactic(auto, unfolding(crate::specs::SheetServices::sheet_services))]
pub(crate) fn sheet_services(
    alloc: Global,
    names: Names<'_, '_>,
) -> Result<Vec<SheetService>, AllocError>
    ensures { IfOk result (λ services. services.items ≡ sheet_services (names_view names.entry)) }
{
    let mut services = Vec::new(alloc);
    if let Some(sheet) = names.sheet {
        attempt!(add_services(&mut services, sheet.entries()));
    }
    Ok(services)
}
