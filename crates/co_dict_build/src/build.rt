//! From a data sheet, a node-ID and limits to a store of any kind, or to the first fault.

ghost use Rattle.std.specs.Prelude.{◌≡◌, ℕ, option_map, ◌≤◌, map, All, AllPairs, true, Err, IfOk, IfErr, None};
ghost use Rattle.co_sheet.specs.SheetViews.{row_view};
ghost use Rattle.co_value.specs.declared.key.Key.{Key};
ghost use Rattle.co_value.specs.Keys.{is_key_before};
ghost use Rattle.co_sheet.specs.SheetLaws.{IsSheetRow};
ghost use Rattle.co_profile.specs.Indices.{pdo_cob_id};
ghost use Rattle.co_dict.specs.Objects.{has_object, has_sub};
ghost use Rattle.co_dict_build.specs.SheetRows.{IsReady};
ghost use Rattle.co_dict_build.specs.Capacities.{limits_view};
ghost use Rattle.co_dict_build.specs.Built.{Plan, dummies_of, plan_of, plan_in, built_description, built_contents};
ghost use Rattle.co_dict_build.specs.BuildFaults.{
  is_communication,
  bad_cob_id,
  unpaired,
  bad_mapping,
  parameter_fault,
  build_fault,
  IsBuildFault,
};

mod cob_ids;
mod entries;
mod mappings;
mod pdo_pairs;
mod room;
mod value_range;

use crate::build_fault::BuildFault;
use crate::limits::Limits;
use co_dict::ObjectStore;
use co_sheet::{EntryRow, Sheet};
use cob_ids::bad_cob_id;
pub use cob_ids::{is_bad_cob_id, is_channel_key};
pub use entries::{entries_of_rows, entry_of_row};
use mappings::bad_mapping;
pub use mappings::is_bad_mapping;
pub use pdo_pairs::is_unpaired;
use pdo_pairs::unpaired;
pub use room::is_too_many;
use std::alloc::{AllocError, Global};
pub use value_range::is_sum_outside;
use value_range::value_out_of_range;

fn word_fault<S: ObjectStore>(store: &S, rows: &[EntryRow<'_>]) -> Option<BuildFault>
    requires { (S.description store.now).keys ≡ map (λ row. row.key) rows.now }
    ensures { result
        ≡ option_map BuildFault.BadCobId
        (bad_cob_id (S.description store.now) (S.contents store.now)) }
{
    bad_cob_id(store, rows).map(BuildFault::BadCobId)
}

fn pair_fault<S: ObjectStore>(store: &S, rows: &[EntryRow<'_>]) -> Option<BuildFault>
    requires { (S.description store.now).keys ≡ map (λ row. row.key) rows.now }
    ensures { result ≡ option_map BuildFault.PdoPair (unpaired (S.description store.now)) }
{
    unpaired(store, rows).map(BuildFault::PdoPair)
}

fn mapping_fault<S: ObjectStore>(store: &S, rows: &[EntryRow<'_>]) -> Option<BuildFault>
    requires { (S.description store.now).keys ≡ map (λ row. row.key) rows.now }
    ensures { result
        ≡ option_map BuildFault.BadMapping
        (bad_mapping (S.description store.now) (S.contents store.now)) }
{
    bad_mapping(store, rows).map(BuildFault::BadMapping)
}

// the first fault of the parameters of a dictionary that was made from the rows of a sheet
fn parameter_fault<S: ObjectStore>(store: &S, rows: &[EntryRow<'_>]) -> Option<BuildFault>
    requires { (S.description store.now).keys ≡ map (λ row. row.key) rows.now }
    ensures { result ≡ parameter_fault (S.description store.now) (S.contents store.now) }
{
    word_fault(store, rows)
        .or(pair_fault(store, rows))
        .or(mapping_fault(store, rows))
}

/// A store that can be made of the rows of a data sheet: `build_store` makes any of them.
pub trait FromRows: ObjectStore {
    /// The dictionary of these rows, in increasing key, with their initial bytes. `AllocError`: out
    /// of memory.
    fn from_rows(
        alloc: Global,
        node_id: u8,
        limits: &Limits<'_>,
        rows: &[EntryRow<'_>],
        dummies: [bool; 6],
    ) -> Result<Self, AllocError>
    where
        Self: Sized,
        requires first_node { 1 ≤ node_id }
        requires last_node { node_id ≤ 127 }
        requires ready { All (λ row. IsReady node_id (row_view row)) rows.now }
        requires increase { AllPairs (λ e f. is_key_before e.key f.key ≡ true) rows.now }
        ensures description { IfOk result (λ store. Self.description store
            ≡ built_description (plan_in node_id limits.now rows.now dummies)) }
        ensures contents { IfOk result (λ store. Self.contents store
            ≡ built_contents (plan_in node_id limits.now rows.now dummies)) };
}

// The first fault of the parameters, whatever the limits are. It is found in a dictionary whose
// strings and domains have room for their defaults only, since none of these faults depends on the
// room.
fn parameter_fault_of<S: FromRows + Drop>(
    alloc: Global,
    node_id: u8,
    rows: &[EntryRow<'_>],
    dummies: [bool; 6],
) -> Result<Option<BuildFault>, AllocError>
    requires first_node { 1 ≤ node_id }
    requires last_node { node_id ≤ 127 }
    requires ready { All (λ row. IsReady node_id (row_view row)) rows.now }
    requires increase { AllPairs (λ e f. is_key_before e.key f.key ≡ true) rows.now }
    ensures { IfOk result (λ fault. (limits : Limits)
        → fault ≡ parameter_fault (built_description (plan_in node_id limits rows.now dummies))
        (built_contents (plan_in node_id limits rows.now dummies))) }
{
    let no_room = Limits {
        strings: 0,
        domains: 0,
        own: &[],
    };
    let store = S::from_rows(alloc, node_id, &no_room, rows, dummies)?;
    Ok(parameter_fault(&store, rows))
}

// The dictionary of rows of a sheet, or its first fault. Nothing is allocated before the node-ID
// and the sums with `$NODEID` are known to be good, and no room for strings and domains before it
// is known not to be too much.
fn build_rows<S: FromRows + Drop>(
    alloc: Global,
    node_id: u8,
    limits: &Limits<'_>,
    rows: &[EntryRow<'_>],
    dummies: [bool; 6],
) -> Result<S, BuildFault>
    requires sheet { All (λ row. IsSheetRow (row_view row)) rows.now }
    requires increase { AllPairs (λ e f. is_key_before e.key f.key ≡ true) rows.now }
    ensures ok { IfOk result (λ _.
        build_fault (plan_in node_id limits.now rows.now dummies) ≡ None) }
    ensures description { IfOk result (λ store. S.description store
        ≡ built_description (plan_in node_id limits.now rows.now dummies)) }
    ensures contents { IfOk result (λ store. S.contents store
        ≡ built_contents (plan_in node_id limits.now rows.now dummies)) }
    ensures initial { IfOk result (λ store. (key : Key) → S.contents store key
        ≡ (S.description store).initial key) }
    ensures err { IfErr result (IsBuildFault (plan_in node_id limits.now rows.now dummies)) }
{
    if node_id < 1 || node_id > 127 {
        return Err(BuildFault::NodeId);
    }
    if let Some(key) = value_out_of_range(node_id, rows) {
        return Err(BuildFault::ValueRange(key));
    }
    if is_too_many(limits, rows) {
        return match parameter_fault_of::<S>(alloc, node_id, rows, dummies) {
            Ok(fault) => Err(fault.unwrap_or(BuildFault::TooMany)),
            Err(_) => Err(BuildFault::Memory),
        };
    }
    match S::from_rows(alloc, node_id, limits, rows, dummies) {
        Ok(store) => match parameter_fault(&store, rows) {
            Some(fault) => Err(fault),
            None => Ok(store),
        },
        Err(_) => Err(BuildFault::Memory),
    }
}

/// Which of the dummy entries 0002h to 0007h the data sheet allows to be mapped (CiA 306, dummy
/// usage).
pub fn usable_dummies(sheet: &Sheet<'_>) -> [bool; 6]
    ensures { result ≡ dummies_of sheet.now }
{
    [
        sheet.dummy(2),
        sheet.dummy(3),
        sheet.dummy(4),
        sheet.dummy(5),
        sheet.dummy(6),
        sheet.dummy(7),
    ]
}

/// The dictionary that a data sheet makes for a node-ID and limits, with its initial bytes
/// (CiA 301, 7.4; CiA 306), as a store of any kind: each row of the sheet becomes an entry,
/// `$NODEID` the node-ID.
///
/// If several faults apply, the one with the smallest number is returned, and of several with that
/// number the one with the smallest key. `Memory` may come in place of any fault but `NodeId` and
/// `ValueRange`: these are found before anything is allocated.
pub fn build_store<S: FromRows + Drop>(
    alloc: Global,
    sheet: &Sheet<'_>,
    node_id: u8,
    limits: &Limits<'_>,
) -> Result<S, BuildFault>
    ensures ok { IfOk result (λ _.
        build_fault (plan_of node_id (limits_view limits.now) sheet.now) ≡ None) }
    ensures description { IfOk result (λ store. S.description store
        ≡ built_description (plan_of node_id (limits_view limits.now) sheet.now)) }
    ensures contents { IfOk result (λ store. S.contents store
        ≡ built_contents (plan_of node_id (limits_view limits.now) sheet.now)) }
    ensures initial { IfOk result (λ store. (key : Key) → S.contents store key
        ≡ (S.description store).initial key) }
    ensures err { IfErr result (IsBuildFault (plan_of node_id (limits_view limits.now) sheet.now)) }
{
    build_rows(
        alloc,
        node_id,
        limits,
        sheet.entries(),
        usable_dummies(sheet),
    )
}

/// In a dictionary that was built each PDO communication parameter has its COB-ID, sub-index 1.
/// This is a law: a call of it changes nothing.
pub fn communication_law()
    ensures { (plan : Plan) → build_fault plan ≡ None →
        (index : ℕ) → is_communication index ≡ true
        → has_object (built_description plan).rows index ≡ true
        → has_sub (built_description plan).rows index pdo_cob_id ≡ true }
{}
