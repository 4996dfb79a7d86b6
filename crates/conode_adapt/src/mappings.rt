//! The mappings at fault in a sheet without other faults.

use crate::orders::Orders;
use co_dict_build::{BuildFault, Limits};
use co_dict_faults::find_build_faults;
use co_dict_list::ListStore;
use co_sheet::{FaultKind, Sheet, read};
use co_sheet_adapt::adapt;
use co_sheet_changes::{AdaptFault, LeadingZeros, on_request};
use std::alloc::{AllocError, Global};

// the mappings at fault among build faults
fn mappings_in(alloc: Global, faults: &[BuildFault]) -> Result<Vec<u16>, AllocError> {
    let mut mappings = Vec::new(alloc);
    for fault in faults {
        if let BuildFault::BadMapping(key) = fault {
            mappings.push(key.index)?;
        }
    }
    Ok(mappings)
}

// the mappings at fault in a sheet, for its node-ID or else for 1
fn mappings_of(alloc: Global, sheet: &Sheet<'_>) -> Result<Vec<u16>, AllocError> {
    let limits = Limits {
        strings: 0,
        domains: 0,
        own: &[],
    };
    let node = sheet.node_id().unwrap_or(1);
    let found = attempt!(find_build_faults::<ListStore>(alloc, sheet, node, &limits));
    mappings_in(alloc, found.faults.as_slice())
}

// the mappings at fault in a text; none if it isn't accepted
fn faulty_mappings(alloc: Global, text: &[u8]) -> Result<Vec<u16>, AllocError> {
    match read(alloc, text) {
        Ok(sheet) => mappings_of(alloc, &sheet),
        Err(fault) if fault.kind == FaultKind::Memory => Err(AllocError),
        Err(_) => Ok(Vec::new(alloc)),
    }
}

// the mappings at fault in a text after it was forced and adapted
fn mappings_by(alloc: Global, text: &[u8], orders: Orders<'_>) -> Result<Vec<u16>, AdaptFault> {
    let forced = attempt!(on_request(alloc, text, orders.force_request()));
    let adapted = attempt!(adapt(alloc, forced.text.as_slice(), b""));
    match faulty_mappings(alloc, adapted.text.as_slice()) {
        Ok(mappings) => Ok(mappings),
        Err(_) => Err(AdaptFault::Memory),
    }
}

/// The indices of the mappings that are still at fault in a text after all else was forced and
/// adapted. `TooLarge` and `Memory` as for `outcome_of`.
pub(crate) fn mappings_at_fault(
    alloc: Global,
    text: &[u8],
    leading_zeros: Option<LeadingZeros>,
) -> Result<Vec<u16>, AdaptFault> {
    let orders = Orders {
        leading_zeros,
        force: Some(&[]),
    };
    let read = attempt!(on_request(alloc, text, orders.zeros_request()));
    mappings_by(alloc, read.text.as_slice(), orders)
}
