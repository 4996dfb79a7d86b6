//! The compiled mappings of the PDOs of a side.

ghost use Rattle.std.specs.Prelude.{List, ◌≡◌, ◌<◌, ◌≤◌, false, length, IfOk, IfSome, IsSome};
ghost use Rattle.co_dict.specs.declared.side.Side.{Side};
ghost use Rattle.co_dict.specs.Rows.{Contents};
ghost use Rattle.co_dict.specs.Stores.{Description};
ghost use Rattle.co_pdo_compiled.specs.declared.part.Part.{Part};
ghost use Rattle.co_profile.specs.PdoNumbers.{count_to};
ghost use Rattle.co_node_model.specs.Mappings.{AgreeOnMappings, may_change_mappings};
ghost use Rattle.co_node_device.specs.MappingTables.{IsMappingTable, AreForms, Covers, HaveParts};
ghost use Rattle.std.specs.List.{slice_index_or};
ghost use Rattle.co_pdo.specs.Images.{answered, contents_after, fault_of, image_of};
ghost use Rattle.co_pdo.specs.Mappings.{mapping_of, total_of};
ghost use Rattle.co_dict_placed.specs.Changes.{with_keys};
ghost use Rattle.co_pdo_compiled.specs.SetEntries.{keys_set};

use co_dict::{ObjectStore, Side};
use co_node_model::{Mark, may_change_mappings};
use co_pdo::{PdoFault, PdoNumber, has_pdo};
use co_pdo_compiled::{Compiled, apply_at, image_at, mapping_by_words};
use co_value::PackedBytes;
use std::alloc::{AllocError, Global};
use std::boxed::BoxedSlice;
use std::marker::Model;

/// A table of compiled mappings stays valid until a mapping parameter is written, 1600h to 17FFh
/// and 1A00h to 1BFFh.
pub(crate) fn mappings_stay()
    ensures { (side : Side) (d : Description) (before now : Contents) (table : List (List Part)) →
        AgreeOnMappings before now →
        IsMappingTable side d before table → IsMappingTable side d now table }
{
    mapping_by_words();
}

/// The last PDO of a side that the dictionary has.
pub(crate) fn last_of<S: ObjectStore>(store: &S, side: Side) -> Option<PdoNumber>
    ensures { Covers side (S.description store.now) (count_to result) }
{
    let mut last = None;
    for k in 0..512u16 {
        let number = PdoNumber::of(k);
        if has_pdo(store, side, number) {
            last = Some(number);
        }
    }
    last
}

/// Compiles the mapping of each PDO again.
#[cold]
#[inline(never)]
fn compile_all<S: ObjectStore>(pdos: &mut [Compiled], store: &S, side: Side)
    requires { length pdos.old ≤ 512 }
    ensures { AreForms side (S.description store.now) (S.contents store.now) pdos.new }
{
    for k in 0..pdos.len() {
        let number = PdoNumber::of(k as u16);
        pdos[k] = Compiled::of(store, side, number);
    }
}

/// The compiled mappings of the PDOs of a side, up to the last PDO that the dictionary has. It
/// allocates no memory after `new`. Contracts see the parts of each.
#[derive(Drop)]
pub struct MappingTable {
    pdos: BoxedSlice<Compiled>,
}

impl Model for MappingTable {
    ghost use Rattle.std.specs.Prelude.{◌≤◌, List, length};
    ghost use Rattle.std.specs.Box.{boxed_slice_items};
    ghost use Rattle.co_pdo_compiled.specs.declared.part.Part.{Part};

    ghost Value = { List (List Part) };

    ghost view = { λ t. boxed_slice_items t.pdos };

    ghost invariant = { λ t. length (boxed_slice_items t.pdos) ≤ 512 };
}

impl MappingTable {
    /// The compiled mappings of a side of the dictionary now. `AllocError` if they can't be
    /// allocated.
    pub fn new<S: ObjectStore>(
        alloc: Global,
        store: &S,
        side: Side,
    ) -> Result<MappingTable, AllocError>
        ensures table { IfOk result (λ table.
            IsMappingTable side (S.description store.now) (S.contents store.now) table) }
        ensures parts { IfOk result (HaveParts (S.description store.now)) }
    {
        let count = PdoNumber::count_to(last_of(store, side));
        let mut pdos = Vec::with_capacity(alloc, usize::from(count))?;
        for k in 0..count {
            let number = PdoNumber::of(k);
            pdos.push_reserved(Compiled::of(store, side, number));
        }
        Ok(MappingTable {
            pdos: pdos.into_boxed_slice(),
        })
    }

    /// Updates the mappings after an input: they are compiled again after a reset, and after a
    /// write of a mapping parameter.
    #[inline(always)]
    pub fn note<S: ObjectStore>(&mut self, mark: &Mark, store: &S, side: Side)
        ensures table { (before : Contents) →
            IsMappingTable side (S.description store.now) before self.old →
            (may_change_mappings mark.now ≡ false → AgreeOnMappings before (S.contents store.now)) →
            IsMappingTable side (S.description store.now) (S.contents store.now) self.new }
        ensures parts { HaveParts (S.description store.now) self.old →
            HaveParts (S.description store.now) self.new }
    {
        if may_change_mappings(mark) {
            compile_all(&mut self.pdos, store, side);
        } else {
            mapping_by_words();
        }
    }

    /// How many bytes PDO k maps.
    #[inline(always)]
    pub fn width(&self, k: PdoNumber) -> usize
        ensures { (side : Side) (d : Description) (contents : Contents) →
            IsMappingTable side d contents self.now →
            result ≡ total_of (mapping_of side d contents k) }
    {
        match self.pdos.get(usize::from(k.get())) {
            Some(compiled) => compiled.width(),
            None => 0,
        }
    }

    /// The data of PDO k, as `image` makes them of its mapping.
    pub fn image<S: ObjectStore>(&self, store: &S, k: PdoNumber) -> PackedBytes
        requires { HaveParts (S.description store.now) self.now }
        ensures { (side : Side) →
            IsMappingTable side (S.description store.now) (S.contents store.now) self.now →
            result ≡ image_of (S.contents store.now)
            (mapping_of side (S.description store.now) (S.contents store.now) k) }
    {
        match self.pdos.get(usize::from(k.get())) {
            Some(compiled) => image_at(store, compiled),
            None => PackedBytes::new(),
        }
    }

    /// Writes the data of PDO k, as `apply` does with its mapping; the errors are the same. The
    /// entries that are written are noted in `changes`.
    pub fn apply<S: ObjectStore>(
        &self,
        store: &mut S,
        k: PdoNumber,
        bytes: &[u8],
        changes: &mut [u8],
    ) -> Result<(), PdoFault>
        requires { HaveParts (S.description store.old) self.now }
        ensures fault { (side : Side) →
            IsMappingTable side (S.description store.old) (S.contents store.old) self.now →
            answered result ≡ fault_of (S.description store.old).rows
            (mapping_of side (S.description store.old) (S.contents store.old) k) bytes.now }
        ensures contents { (side : Side) →
            IsMappingTable side (S.description store.old) (S.contents store.old) self.now →
            S.contents store.new ≡ contents_after (S.description store.old).rows
            (mapping_of side (S.description store.old) (S.contents store.old) k) bytes.now
            (S.contents store.old) }
        ensures description { S.description store.new ≡ S.description store.old }
        ensures changes { (side : Side) →
            IsMappingTable side (S.description store.old) (S.contents store.old) self.now →
            changes.new ≡ with_keys (S.description store.old)
            (keys_set (S.description store.old).rows
            (mapping_of side (S.description store.old) (S.contents store.old) k) bytes.now)
            changes.old }
    {
        match self.pdos.get(usize::from(k.get())) {
            Some(compiled) => apply_at(store, compiled, bytes, changes),
            None if bytes.is_empty() => Ok(()),
            None => Err(PdoFault::Long),
        }
    }

    /// The compiled mapping of PDO k; `None` if k is past the last PDO of the side.
    pub fn compiled(&self, k: PdoNumber) -> Option<&Compiled>
        ensures there { k < length self.now → IsSome result }
        ensures form { IfSome result (λ compiled. (k < length self.now) ×
            (compiled.now ≡ slice_index_or self.now k compiled.now)) }
    {
        self.pdos.get(usize::from(k.get()))
    }
}
