//! Whose PDOs have an identifier, by the data sheets and by what the recording shows, else by the
//! pre-defined connection set.

ghost use Rattle.std.specs.Prelude.{◌≡◌, ◌++◌, [], false, OnOk, filter_map, map};
ghost use Rattle.std.specs.List.{list_any};
ghost use Rattle.std.specs.Option.{option_to_list};
ghost use Rattle.co_sheet_changes.specs.Names.{names_view};
ghost use Rattle.conode_explain_cob_ids.specs.Buses.{bus_view};
ghost use Rattle.conode_explain_cob_ids.specs.Known.{known_view};
ghost use Rattle.conode_explain_cob_ids.specs.Claims.{
  assumed_claims,
  both_claims,
  claim_of,
  claims_with,
  default_claim,
  default_index,
  free_claim,
  is_claim_of,
  is_cob_id_shown,
  is_mapped,
  sheet_may_have,
  may_be_shown,
  is_said,
  is_shown,
  is_unseen,
  kind_claims,
  may_be_claimed,
  names_node,
  received_claims,
  sent_claims,
  sheet_claim,
  sheet_claims,
  sheets_claims,
  shown_claim,
  shows,
  unseen_claim,
  with_sender,
};

use crate::bus::Bus;
use crate::cob_id::{has_identifier, is_default_rpdo, may_be_pdo};
use crate::known::is_none_for;
use crate::known_sheet::KnownSheet;
use crate::origin::{Origin, is_from};
use crate::service_ids::service_with;
use crate::sheet::SheetPdo;
use crate::sheet_mappings::{is_assumed, sheet_mapping};
use co_profile::IndexRange;
use conode_explain_entries::{ShownPdo, Value};
use std::alloc::AllocError;

/// A node's PDO that has the identifier.
#[derive(Clone, Copy)]
pub struct Claim {
    /// The node-ID.
    pub node: u8,
    /// The index of its communication parameter.
    pub index: u16,
}

fn is_cob_id_shown(bus: Bus<'_, '_, '_, '_, '_>, node: u8, index: u16) -> bool
    ensures { result ≡ is_cob_id_shown (bus_view bus.entry) node index }
{
    match bus.state(node, index) {
        Some(state) => !is_from(Origin::Sheet, state.now.cob_id),
        None => false,
    }
}

fn is_said(
    bus: Bus<'_, '_, '_, '_, '_>,
    earlier: &[KnownSheet<'_, '_>],
    node: u8,
    index: u16,
) -> bool
    ensures { result ≡ is_said (bus_view bus.entry) (map known_view earlier.now) node index }
{
    is_none_for(earlier, bus.interface, node) && !is_cob_id_shown(bus, node, index)
}

fn claim_of(
    bus: Bus<'_, '_, '_, '_, '_>,
    earlier: &[KnownSheet<'_, '_>],
    index: u16,
    node: u8,
) -> Option<Claim>
    ensures { result ≡ claim_of (bus_view bus.entry) (map known_view earlier.now) index node }
{
    if is_said(bus, earlier, node, index) {
        Some(Claim { node, index })
    } else {
        None
    }
}

// whether the node of a PDO follows from the sheet or the identifier
fn names_node(only: Option<u8>, id: u16, pdo: &SheetPdo) -> bool
    ensures { result ≡ names_node only id pdo.now }
{
    (only.is_some() || pdo.cob_id.with_node)
        || (!IndexRange::RPDO_COMMUNICATION.contains(pdo.index) || is_default_rpdo(id))
}

#[tactic(auto, unfolding(crate::specs::Claims::sheet_claim))]
fn sheet_claim(
    bus: Bus<'_, '_, '_, '_, '_>,
    earlier: &[KnownSheet<'_, '_>],
    only: Option<u8>,
    range: IndexRange,
    id: u16,
    pdo: &SheetPdo,
) -> Option<Claim>
    ensures { result ≡ sheet_claim (bus_view bus.entry) (map known_view earlier.now) only range id pdo.now }
{
    if !(range.contains(pdo.index) && names_node(only, id, pdo)) {
        return None;
    }
    let Some(node) = pdo.cob_id.node_with(only, id) else {
        return None;
    };
    claim_of(bus, earlier, pdo.index, node)
}

fn add_claim(claims: &mut Vec<Claim>, claim: Option<Claim>) -> Result<(), AllocError>
    ensures { OnOk result (claims.new.items ≡ claims.old.items ++ option_to_list claim) }
{
    let Some(claim) = claim else {
        return Ok(());
    };
    match claims.push(claim) {
        Ok(()) => Ok(()),
        Err(_) => Err(AllocError),
    }
}

// adds the PDOs of a kind, of a sheet, that have an identifier
fn add_pdos_of(
    claims: &mut Vec<Claim>,
    bus: Bus<'_, '_, '_, '_, '_>,
    earlier: &[KnownSheet<'_, '_>],
    sheet: &KnownSheet<'_, '_>,
    range: IndexRange,
    id: u16,
) -> Result<(), AllocError>
    ensures { OnOk result (claims.new.items ≡ claims.old.items
        ++ filter_map (sheet_claim (bus_view bus.entry) (map known_view earlier.now)
        (names_view sheet.now.names).only range id) sheet.now.pdos.items) }
{
    let pdos = sheet.pdos.as_slice();
    for pdo in pdos {
        let claim = sheet_claim(bus, earlier, sheet.names.only, range, id, pdo);
        attempt!(add_claim(claims, claim));
    }
    Ok(())
}

fn add_sheet(
    claims: &mut Vec<Claim>,
    bus: Bus<'_, '_, '_, '_, '_>,
    earlier: &[KnownSheet<'_, '_>],
    sheet: &KnownSheet<'_, '_>,
    range: IndexRange,
    id: u16,
) -> Result<(), AllocError>
    ensures { OnOk result (claims.new.items ≡ claims.old.items
        ++ sheet_claims (bus_view bus.entry) (map known_view earlier.now) (known_view sheet.now) range id) }
{
    if sheet.is_on(bus.interface) {
        return add_pdos_of(claims, bus, earlier, sheet, range, id);
    }
    Ok(())
}

// adds the PDOs of a kind, of all sheets, that have an identifier
fn add_sheets(
    claims: &mut Vec<Claim>,
    bus: Bus<'_, '_, '_, '_, '_>,
    range: IndexRange,
    id: u16,
) -> Result<(), AllocError>
    ensures { OnOk result (claims.new.items ≡ claims.old.items
        ++ sheets_claims (bus_view bus.entry) range id [] (map known_view bus.entry.sheets.now)) }
{
    let sheets = bus.sheets;
    for place in 0..sheets.len() {
        let (earlier, sheet) = (&sheets[..place], &sheets[place]);
        attempt!(add_sheet(claims, bus, earlier, sheet, range, id));
    }
    Ok(())
}

fn shows(value: Value, id: u16) -> bool
    ensures { result ≡ shows value id }
{
    match value {
        Value::Seen { number } => has_identifier(number as u64, id),
        Value::Saved { number } => has_identifier(number as u64, id),
        _ => false,
    }
}

fn is_shown(bus: Bus<'_, '_, '_, '_, '_>, range: IndexRange, id: u16, pdo: &ShownPdo) -> bool
    ensures { result ≡ is_shown (bus_view bus.entry) range id pdo.now }
{
    range.contains(pdo.index)
        && (shows(pdo.state.now.cob_id, id) && pdo.interface.as_slice() == bus.interface)
}

#[tactic(auto, unfolding(crate::specs::Claims::shown_claim))]
fn shown_claim(
    bus: Bus<'_, '_, '_, '_, '_>,
    range: IndexRange,
    id: u16,
    pdo: &ShownPdo,
) -> Option<Claim>
    ensures { result ≡ shown_claim (bus_view bus.entry) range id pdo.now }
{
    if !is_shown(bus, range, id, pdo) {
        return None;
    }
    Some(Claim {
        node: pdo.node,
        index: pdo.index,
    })
}

// adds the PDOs of a kind whose COB-IDs the recording shows
fn add_shown(
    claims: &mut Vec<Claim>,
    bus: Bus<'_, '_, '_, '_, '_>,
    range: IndexRange,
    id: u16,
) -> Result<(), AllocError>
    ensures { OnOk result (claims.new.items ≡ claims.old.items
        ++ filter_map (shown_claim (bus_view bus.entry) range id) bus.entry.entries.now) }
{
    let pdos = bus.entries.shown();
    for pdo in pdos {
        attempt!(add_claim(claims, shown_claim(bus, range, id, pdo)));
    }
    Ok(())
}

fn add_kind(
    claims: &mut Vec<Claim>,
    bus: Bus<'_, '_, '_, '_, '_>,
    range: IndexRange,
    id: u16,
) -> Result<(), AllocError>
    ensures { OnOk result (claims.new.items
        ≡ claims.old.items ++ kind_claims (bus_view bus.entry) range id) }
{
    attempt!(add_sheets(claims, bus, range, id));
    add_shown(claims, bus, range, id)
}

// the index of the PDO that the pre-defined connection set has by a function code
fn default_index(code: u16) -> Option<u16>
    ensures { result ≡ default_index code }
{
    match code {
        3 => Some(0x1800),
        4 => Some(0x1400),
        5 => Some(0x1801),
        6 => Some(0x1401),
        7 => Some(0x1802),
        8 => Some(0x1402),
        9 => Some(0x1803),
        10 => Some(0x1403),
        _ => None,
    }
}

fn default_claim(id: u16) -> Option<Claim>
    ensures { result ≡ default_claim id }
{
    match default_index(id / 128) {
        Some(index) => Some(Claim {
            node: (id % 128) as u8,
            index,
        }),
        None => None,
    }
}

// whether the recording shows another entry of a PDO than its COB-ID, which the sheet doesn't have
// either
fn is_mapped(bus: Bus<'_, '_, '_, '_, '_>, claim: Claim) -> bool
    ensures { result ≡ is_mapped (bus_view bus.entry) claim }
{
    if bus.state(claim.node, claim.index).is_none() {
        return false;
    }
    let sheet = sheet_mapping(bus, claim.node, claim.index);
    is_assumed(sheet, Value::Assumed) && !is_cob_id_shown(bus, claim.node, claim.index)
}

// adds a PDO, unless a COB-ID names a service that has its identifier
fn add_free(
    claims: &mut Vec<Claim>,
    bus: Bus<'_, '_, '_, '_, '_>,
    id: u16,
    claim: Claim,
) -> Result<(), AllocError>
    ensures { OnOk result (claims.new.items
        ≡ claims.old.items ++ free_claim (bus_view bus.entry) id claim) }
{
    match service_with(bus, id) {
        Some(_) => Ok(()),
        None => add_claim(claims, Some(claim)),
    }
}

// adds the PDO of a kind that the pre-defined connection set has an identifier for, if it is mapped
fn add_assumed(
    claims: &mut Vec<Claim>,
    bus: Bus<'_, '_, '_, '_, '_>,
    range: IndexRange,
    id: u16,
) -> Result<(), AllocError>
    ensures { OnOk result (claims.new.items
        ≡ claims.old.items ++ assumed_claims (bus_view bus.entry) range id) }
{
    match default_claim(id) {
        Some(claim) if range.contains(claim.index) && is_mapped(bus, claim) => {
            add_free(claims, bus, id, claim)
        }
        _ => Ok(()),
    }
}

// adds the PDOs with an identifier that nodes send
#[tactic(auto, using(crate::proofs::Claims::some_added, crate::proofs::Claims::none_added))]
fn add_sent(
    claims: &mut Vec<Claim>,
    bus: Bus<'_, '_, '_, '_, '_>,
    id: u16,
) -> Result<(), AllocError>
    ensures { OnOk result (claims.new.items
        ≡ claims.old.items ++ sent_claims (bus_view bus.entry) id) }
{
    let before = claims.len();
    attempt!(add_kind(claims, bus, IndexRange::TPDO_COMMUNICATION, id));
    if before < claims.len() {
        return Ok(());
    }
    add_assumed(claims, bus, IndexRange::TPDO_COMMUNICATION, id)
}

// adds those that nodes receive
fn add_received(
    claims: &mut Vec<Claim>,
    bus: Bus<'_, '_, '_, '_, '_>,
    id: u16,
) -> Result<(), AllocError>
    ensures { OnOk result (claims.new.items
        ≡ claims.old.items ++ received_claims (bus_view bus.entry) id) }
{
    attempt!(add_kind(claims, bus, IndexRange::RPDO_COMMUNICATION, id));
    add_assumed(claims, bus, IndexRange::RPDO_COMMUNICATION, id)
}

// whether nothing is known of a sender: its node has no sheet, and the recording shows no entry of
// its PDO
fn is_unseen(bus: Bus<'_, '_, '_, '_, '_>, claim: Claim) -> bool
    ensures { result ≡ is_unseen (bus_view bus.entry) claim }
{
    claim.node != 0
        && (is_none_for(bus.sheets, bus.interface, claim.node)
            && bus.state(claim.node, claim.index).is_none())
}

// the sender that the pre-defined connection set has an identifier for, if nothing is known of it
fn unseen_sender(bus: Bus<'_, '_, '_, '_, '_>, id: u16) -> Option<Claim>
    ensures { option_to_list result ≡ unseen_claim (bus_view bus.entry) (default_claim id) }
{
    match default_claim(id) {
        Some(claim)
            if IndexRange::TPDO_COMMUNICATION.contains(claim.index) && is_unseen(bus, claim) => {
            Some(claim)
        }
        _ => None,
    }
}

// adds the PDOs with an identifier that none is known to send: those that nodes receive, and if there
// are any, before them the one of which nothing is known
#[tactic(auto, using(crate::proofs::Claims::sender_kept, crate::proofs::Claims::none_received))]
fn add_unsent(
    claims: &mut Vec<Claim>,
    bus: Bus<'_, '_, '_, '_, '_>,
    id: u16,
) -> Result<(), AllocError>
    ensures { OnOk result (claims.new.items ≡ claims.old.items
        ++ with_sender (unseen_claim (bus_view bus.entry) (default_claim id)) []
        (received_claims (bus_view bus.entry) id)) }
{
    let before = claims.len();
    attempt!(add_claim(claims, unseen_sender(bus, id)));
    let sent = claims.len();
    attempt!(add_received(claims, bus, id));
    if claims.len() <= sent {
        claims.truncate(before);
    }
    Ok(())
}

// whether one may have a PDO with an identifier
fn sheets_may_have(sheets: &[KnownSheet<'_, '_>], id: u16) -> bool
    ensures { result ≡ false → list_any (sheet_may_have id) (map known_view sheets.now) ≡ false }
{
    for sheet in sheets {
        if sheet.may_have(id) {
            return true;
        }
    }
    false
}

fn is_claim_of(claim: Option<Claim>, pdo: &ShownPdo) -> bool
    ensures { result ≡ is_claim_of claim pdo.now }
{
    match claim {
        Some(claim) => pdo.node == claim.node && pdo.index == claim.index,
        None => false,
    }
}

fn any_may_be_shown(pdos: &[ShownPdo], id: u16) -> bool
    ensures { result ≡ list_any (may_be_shown id) pdos.now }
{
    let claim = default_claim(id);
    for pdo in pdos {
        if shows(pdo.state.now.cob_id, id) || is_claim_of(claim, pdo) {
            return true;
        }
    }
    false
}

fn may_be_claimed(bus: Bus<'_, '_, '_, '_, '_>, id: u16) -> bool
    ensures { result ≡ false → may_be_claimed (bus_view bus.entry) id ≡ false }
{
    sheets_may_have(bus.sheets, id) || any_may_be_shown(bus.entries.shown(), id)
}

#[tactic(auto, using(crate::proofs::Claims::some_sent, crate::proofs::Claims::none_sent))]
fn add_both(
    claims: &mut Vec<Claim>,
    bus: Bus<'_, '_, '_, '_, '_>,
    id: u16,
) -> Result<(), AllocError>
    ensures { OnOk result (claims.new.items
        ≡ claims.old.items ++ both_claims (bus_view bus.entry) id) }
{
    // of most frames one look at the PDOs is enough
    if !may_be_claimed(bus, id) {
        return Ok(());
    }
    let before = claims.len();
    attempt!(add_sent(claims, bus, id));
    if before < claims.len() {
        return add_received(claims, bus, id);
    }
    add_unsent(claims, bus, id)
}

/// Adds the PDOs that have an identifier, by the data sheets and by the COB-IDs that the recording
/// shows, and by the pre-defined connection set one of which the recording shows the mapping alone,
/// and where only nodes that receive it are known its sender: first those that nodes send, and then
/// those that they receive. On an `Err` memory ran out.
#[tactic(auto, unfolding(crate::specs::Claims::claims_with))]
pub fn add_claims(
    claims: &mut Vec<Claim>,
    bus: Bus<'_, '_, '_, '_, '_>,
    id: u16,
) -> Result<(), AllocError>
    ensures { OnOk result (claims.new.items
        ≡ claims.old.items ++ claims_with (bus_view bus.entry) id) }
{
    if may_be_pdo(id) {
        return add_both(claims, bus, id);
    }
    Ok(())
}
