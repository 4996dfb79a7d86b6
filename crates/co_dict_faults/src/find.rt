//! All faults of a dictionary.

ghost use Rattle.std.specs.Prelude.{◌≡◌, ◌≤◌, ◌++◌, map, true, All, AllPairs, IfOk, OnOk};
ghost use Rattle.co_value.specs.Keys.{is_key_before};
ghost use Rattle.co_sheet.specs.SheetViews.{row_view};
ghost use Rattle.co_sheet.specs.SheetLaws.{IsSheetRow};
ghost use Rattle.co_dict_build.specs.declared.build_fault.BuildFault.TheVariants.{
  TooMany,
  ValueRange,
};
ghost use Rattle.co_dict_build.specs.Capacities.{limits_view};
ghost use Rattle.co_dict_build.specs.Built.{plan_of, plan_in, built_description, built_contents};
ghost use Rattle.co_dict_faults.specs.SoundPlans.{sound_plan};
ghost use Rattle.co_dict_faults.specs.AllBuildFaults.{
  parameter_faults,
  build_faults_of,
  list_if,
  mapping_faults_of,
  words_at_fault,
};

use crate::mapping_fault::MappingFault;
use crate::parameters::{add_if, add_lone_objects, add_mappings, add_words, add_words_at_fault};
use crate::sound_rows::{sound_rows, sums_outside};
use co_dict::ObjectStore;
use co_dict_build::{BuildFault, FromRows, Limits, is_too_many, usable_dummies};
use co_sheet::{EntryRow, Sheet};
use co_value::Key;
use std::alloc::{AllocError, Global};

/// All faults of a dictionary.
#[derive(Drop)]
pub struct BuildFaults {
    /// By the numbers of their kinds, and then by key; none is there twice.
    pub faults: Vec<BuildFault>,
    /// For each mapping among them the faults of its words and its count.
    pub mappings: Vec<MappingFault>,
}

fn add_value_ranges(faults: &mut Vec<BuildFault>, outside: &[Key]) -> Result<(), AllocError>
    ensures { OnOk result (faults.new.items ≡ faults.old.items ++ map ValueRange outside.now) }
{
    for key in outside {
        attempt_in_memory!(faults.push(BuildFault::ValueRange(*key)));
    }
    Ok(())
}

// adds all faults of a dictionary, with the sums out of range, and whether it needs too much
fn add_faults<S: ObjectStore>(
    faults: &mut Vec<BuildFault>,
    store: &S,
    rows: &[EntryRow<'_>],
    outside: &[Key],
    is_too_many: bool,
) -> Result<(), AllocError>
    requires { (S.description store.now).keys ≡ map (λ row. row.key) rows.now }
    ensures { OnOk result (faults.new.items ≡ faults.old.items ++ ((map ValueRange outside.now
        ++ parameter_faults outside.now (S.description store.now) (S.contents store.now))
        ++ list_if is_too_many TooMany)) }
{
    attempt!(add_value_ranges(faults, outside));
    attempt!(add_words(faults, store, rows, outside));
    attempt!(add_lone_objects(faults, store, rows));
    attempt!(add_mappings(faults, store, rows, outside));
    add_if(faults, is_too_many, BuildFault::TooMany)
}

// the dictionary of rows of a sheet without the sums out of range, and without room for strings and
// domains
fn sound_store<S: FromRows>(
    alloc: Global,
    node_id: u8,
    rows: &[EntryRow<'_>],
    dummies: [bool; 6],
) -> Result<S, AllocError>
    requires first_node { 1 ≤ node_id }
    requires last_node { node_id ≤ 127 }
    requires sheet { All (λ row. IsSheetRow (row_view row)) rows.now }
    requires increase { AllPairs (λ e f. is_key_before e.key f.key ≡ true) rows.now }
    ensures description { IfOk result (λ store. (limits : Limits) → S.description store
        ≡ built_description (sound_plan (plan_in node_id limits rows.now dummies))) }
    ensures contents { IfOk result (λ store. (limits : Limits) → S.contents store
        ≡ built_contents (sound_plan (plan_in node_id limits rows.now dummies))) }
    ensures keys { IfOk result (λ store.
        (S.description store).keys ≡ map (λ row. row.key) rows.now) }
{
    let no_room = Limits {
        strings: 0,
        domains: 0,
        own: &[],
    };
    let sound = attempt!(sound_rows(alloc, node_id, rows));
    let store = attempt!(S::from_rows(alloc, node_id, &no_room, sound.as_slice(), dummies));
    Ok(store)
}

// all faults of a dictionary, with the sums out of range, and whether it needs too much
fn found_in<S: ObjectStore>(
    alloc: Global,
    store: &S,
    rows: &[EntryRow<'_>],
    outside: &[Key],
    is_too_many: bool,
) -> Result<BuildFaults, AllocError>
    requires { (S.description store.now).keys ≡ map (λ row. row.key) rows.now }
    ensures faults { IfOk result (λ found. found.faults.items
        ≡ (map ValueRange outside.now
        ++ parameter_faults outside.now (S.description store.now) (S.contents store.now))
        ++ list_if is_too_many TooMany) }
    ensures mappings { IfOk result (λ found. found.mappings.items
        ≡ words_at_fault outside.now (S.description store.now) (S.contents store.now)
        (map (λ row. row.key) rows.now)) }
{
    let mut faults = Vec::new(alloc);
    attempt!(add_faults(&mut faults, store, rows, outside, is_too_many));
    let mut mappings = Vec::new(alloc);
    attempt!(add_words_at_fault(alloc, &mut mappings, store, rows, outside));
    Ok(BuildFaults { faults, mappings })
}

// all faults of the rows of a sheet
fn find_in_rows<S: FromRows + Drop>(
    alloc: Global,
    node_id: u8,
    limits: &Limits<'_>,
    rows: &[EntryRow<'_>],
    dummies: [bool; 6],
) -> Result<BuildFaults, AllocError>
    requires sheet { All (λ row. IsSheetRow (row_view row)) rows.now }
    requires increase { AllPairs (λ e f. is_key_before e.key f.key ≡ true) rows.now }
    ensures faults { IfOk result (λ found. found.faults.items
        ≡ build_faults_of (plan_in node_id limits.now rows.now dummies)) }
    ensures mappings { IfOk result (λ found. found.mappings.items
        ≡ mapping_faults_of (plan_in node_id limits.now rows.now dummies)) }
{
    if node_id < 1 || node_id > 127 {
        let mut faults = Vec::new(alloc);
        attempt_in_memory!(faults.push(BuildFault::NodeId));
        let mappings = Vec::new(alloc);
        return Ok(BuildFaults { faults, mappings });
    }
    let outside = attempt!(sums_outside(alloc, node_id, rows));
    let store: S = attempt!(sound_store(alloc, node_id, rows, dummies));
    found_in(
        alloc,
        &store,
        rows,
        outside.as_slice(),
        is_too_many(limits, rows),
    )
}

/// All faults of the dictionary that a data sheet makes for a node-ID and limits (CiA 301, 7.4;
/// CiA 306), where `co_dict_build::build_store` returns the first only: each sum with `$NODEID` out
/// of range, each initial COB-ID that isn't allowed, each PDO object without its partner or an
/// entry that it needs, each initial mapping that isn't allowed, with each of its words, and too
/// many entries or too much room. If the node-ID isn't 1 to 127, that fault alone.
///
/// No fault is reported that depends on a sum out of range: a mapping depends on its count and its
/// words, a COB-ID on its word and on those of the SDO channels. `S` is the store that is made for
/// the search. `Err`: out of memory; no fault in the list is `Memory`.
pub fn find_build_faults<S: FromRows + Drop>(
    alloc: Global,
    sheet: &Sheet<'_>,
    node_id: u8,
    limits: &Limits<'_>,
) -> Result<BuildFaults, AllocError>
    ensures faults { IfOk result (λ found. found.faults.items
        ≡ build_faults_of (plan_of node_id (limits_view limits.now) sheet.now)) }
    ensures mappings { IfOk result (λ found. found.mappings.items
        ≡ mapping_faults_of (plan_of node_id (limits_view limits.now) sheet.now)) }
{
    find_in_rows::<S>(
        alloc,
        node_id,
        limits,
        sheet.entries(),
        usable_dummies(sheet),
    )
}
