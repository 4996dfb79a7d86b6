//! Which identifiers the COB-IDs of a data sheet may name.

ghost use Rattle.std.specs.Prelude.{◌≡◌, false, IfOk};
ghost use Rattle.std.specs.List.{list_any};
ghost use Rattle.conode_explain_cob_ids.specs.Claims.{sheet_may_have};
ghost use Rattle.conode_explain_cob_ids.specs.Known.{known_view};
ghost use Rattle.conode_explain_cob_ids.specs.Named.{
  has_base,
  is_of_sheet,
  is_used,
  may_have,
  may_name,
  named_below,
  names_id,
};

use crate::known_sheet::KnownSheet;
use crate::sheet::SheetPdo;
use crate::sheet_services::SheetService;
use std::alloc::{AllocError, Global};

fn has_base(word: u64, id: u16) -> bool
    ensures { result ≡ has_base word id }
{
    word / 0x2000_0000 % 2 == 0 && word % 0x800 == id as u64
}

fn is_used(index: u16, word: u64) -> bool
    ensures { result ≡ is_used index word }
{
    if index == 0x1014 {
        word < 0x8000_0000
    } else if index == 0x1012 {
        word / 0x4000_0000 % 4 != 0
    } else {
        true
    }
}

/// Whether the COB-ID of a service has an identifier.
pub(crate) fn names_id(index: u16, word: u64, id: u16) -> bool
    ensures { result ≡ names_id index word id }
{
    has_base(word, id) && is_used(index, word)
}

/// Whether a COB-ID of a data sheet has an identifier, of the node that the sheet is for or of one
/// that fits.
pub(crate) fn may_name(only: Option<u8>, id: u16, service: &SheetService) -> bool
    ensures { result ≡ may_name only id service.now }
{
    let node = service.cob_id.node_for(only, id);
    names_id(service.index, service.cob_id.word_for(node), id)
}

fn may_have(only: Option<u8>, id: u16, pdo: &SheetPdo) -> bool
    ensures { result ≡ may_have only id pdo.now }
{
    pdo.cob_id.node_with(only, id).is_some()
}

fn any_may_have(only: Option<u8>, pdos: &[SheetPdo], id: u16) -> bool
    ensures { result ≡ list_any (may_have only id) pdos.now }
{
    for pdo in pdos {
        if may_have(only, id, pdo) {
            return true;
        }
    }
    false
}

fn any_may_name(only: Option<u8>, services: &[SheetService], id: u16) -> bool
    ensures { result ≡ list_any (may_name only id) services.now }
{
    for service in services {
        if may_name(only, id, service) {
            return true;
        }
    }
    false
}

fn is_of_sheet(only: Option<u8>, pdos: &[SheetPdo], services: &[SheetService], id: u16) -> bool
    ensures { result ≡ is_of_sheet only pdos.now services.now id }
{
    any_may_have(only, pdos, id) || any_may_name(only, services, id)
}

/// Of each identifier below a number whether one of these COB-IDs may name it. On an `Err` memory
/// ran out.
#[tactic(auto, unfolding(crate::specs::Named::named_below))]
pub(crate) fn named_below(
    alloc: Global,
    only: Option<u8>,
    pdos: &[SheetPdo],
    services: &[SheetService],
    count: u16,
) -> Result<Vec<bool>, AllocError>
    ensures { IfOk result
        (λ named. named.items ≡ named_below only pdos.now services.now count) }
{
    let mut named = Vec::new(alloc);
    for id in 0..count {
        match named.push(is_of_sheet(only, pdos, services, id)) {
            Ok(()) => {}
            Err(_) => return Err(AllocError),
        }
    }
    Ok(named)
}

impl KnownSheet<'_, '_> {
    /// Whether one of its COB-IDs may name an identifier. `false` for most: one look tells that it
    /// is none of the sheet's PDOs and services.
    pub(crate) fn may_name(&self, id: u16) -> bool
        ensures pdo { result ≡ false → sheet_may_have id (known_view self.now) ≡ false }
        ensures service { result ≡ false → list_any
            (may_name (known_view self.now).names.only id) (known_view self.now).services ≡ false }
    {
        let place = id as usize;
        if place < self.named.len() {
            self.named[place]
        } else {
            true
        }
    }

    /// Whether one of its PDOs may have an identifier. `false` for most, and for those of its services.
    pub(crate) fn may_have(&self, id: u16) -> bool
        ensures { result ≡ false → sheet_may_have id (known_view self.now) ≡ false }
    {
        let place = id as usize;
        if place < self.had.len() {
            self.had[place]
        } else {
            true
        }
    }
}
