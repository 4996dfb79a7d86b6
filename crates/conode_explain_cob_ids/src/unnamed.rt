//! Identifiers that no COB-ID names.

ghost use Rattle.std.specs.Prelude.{◌≡◌, [], false, true, None, map};
ghost use Rattle.std.specs.List.{list_any};
ghost use Rattle.conode_explain_entries.specs.MovedIds.{moved_in};
ghost use Rattle.conode_explain_cob_ids.specs.Buses.{bus_view};
ghost use Rattle.conode_explain_cob_ids.specs.Claims.{claims_with, sheet_may_have};
ghost use Rattle.conode_explain_cob_ids.specs.Known.{known_view};
ghost use Rattle.conode_explain_cob_ids.specs.ServiceIds.{service_with, sheet_may_serve};
ghost use Rattle.conode_explain_cob_ids.specs.Shown.{is_more, shows_more};

use crate::bus::Bus;
use crate::known_sheet::KnownSheet;
use co_profile::DEVICE_TYPE;
use conode_explain_entries::ShownPdo;

// whether one may have a PDO with an identifier, or a service
#[inline(always)]
fn sheets_may_name(sheets: &[KnownSheet<'_, '_>], id: u16) -> bool
    ensures pdos { result ≡ false →
        list_any (sheet_may_have id) (map known_view sheets.now) ≡ false }
    ensures services { result ≡ false →
        list_any (sheet_may_serve id) (map known_view sheets.now) ≡ false }
{
    for sheet in sheets {
        if sheet.may_name(id) {
            return true;
        }
    }
    false
}

fn is_more(shown: &ShownPdo) -> bool
    ensures { result ≡ is_more shown.now }
{
    shown.index != DEVICE_TYPE
}

/// Whether a recording shows more than device types (1000h), which name no identifier: most masters
/// ask for them.
#[inline(always)]
pub fn shows_more(entries: &[ShownPdo]) -> bool
    ensures { result ≡ shows_more entries.now }
{
    for shown in entries {
        if is_more(shown) {
            return true;
        }
    }
    false
}

/// Whether one look tells that an identifier is of no PDO and of no service that a COB-ID names, and
/// that it isn't moved away from its node: no data sheet names it, and the recording shows at most
/// device types. So it is for most frames of most recordings. On `false` it may still be of none.
#[inline(always)]
pub fn is_unnamed(bus: Bus<'_, '_, '_, '_, '_>, id: u16) -> bool
    ensures claims { result ≡ true → claims_with (bus_view bus.entry) id ≡ [] }
    ensures service { result ≡ true → service_with (bus_view bus.entry) id ≡ None }
    ensures moved { result ≡ true →
        moved_in (bus_view bus.entry).entries (bus_view bus.entry).interface id ≡ None }
{
    if shows_more(bus.entries.shown()) {
        return false;
    }
    !sheets_may_name(bus.sheets, id)
}
