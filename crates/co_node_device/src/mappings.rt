//! The compiled mappings of all PDOs.

ghost use Rattle.std.specs.Prelude.{◌≡◌, true, false, IfOk, IfSome, IsSome};
ghost use Rattle.co_dict.specs.Rows.{Contents};
ghost use Rattle.co_dict.specs.Stores.{Description};
ghost use Rattle.co_pdo.specs.Mappings.{has_pdo, mapping_of};
ghost use Rattle.co_pdo_compiled.specs.CompiledMappings.{IsCompiledForm};
ghost use Rattle.co_node_model.specs.Mappings.{may_change_mappings, AgreeOnMappings};
ghost use Rattle.co_node_device.specs.MappingTables.{AreMappings, HaveParts};

use crate::mapping_table::MappingTable;
use co_dict::{ObjectStore, Side};
use co_node_model::Mark;
use co_pdo::PdoNumber;
use co_pdo_compiled::Compiled;
use std::alloc::{AllocError, Global};

/// The compiled mappings of all PDOs of a device. They allocate no memory after `new`.
#[derive(Drop)]
pub struct CompiledMappings {
    /// Those of the RPDOs.
    pub rpdos: MappingTable,
    /// Those of the TPDOs.
    pub tpdos: MappingTable,
}

impl CompiledMappings {
    /// The compiled mappings of the dictionary now. `AllocError` if they can't be allocated.
    pub fn new<S: ObjectStore>(alloc: Global, store: &S) -> Result<CompiledMappings, AllocError>
        ensures mappings { IfOk result (λ mappings.
            AreMappings (S.description store.now) (S.contents store.now) mappings) }
        ensures rpdos { IfOk result (λ m. HaveParts (S.description store.now) m.rpdos) }
        ensures tpdos { IfOk result (λ m. HaveParts (S.description store.now) m.tpdos) }
    {
        let rpdos = MappingTable::new(alloc, store, Side::Rpdo)?;
        let tpdos = MappingTable::new(alloc, store, Side::Tpdo)?;
        Ok(CompiledMappings { rpdos, tpdos })
    }

    /// Updates the mappings after an input: they are compiled again after a reset, and after a
    /// write of a mapping parameter.
    #[inline(always)]
    pub fn note<S: ObjectStore>(&mut self, mark: &Mark, store: &S)
        ensures mappings { (before : Contents) → AreMappings (S.description store.now) before
            self.old →
            (may_change_mappings mark.now ≡ false → AgreeOnMappings before (S.contents store.now)) →
            AreMappings (S.description store.now) (S.contents store.now) self.new }
        ensures rpdos { HaveParts (S.description store.now) self.old.rpdos →
            HaveParts (S.description store.now) self.new.rpdos }
        ensures tpdos { HaveParts (S.description store.now) self.old.tpdos →
            HaveParts (S.description store.now) self.new.tpdos }
    {
        self.rpdos.note(mark, store, Side::Rpdo);
        self.tpdos.note(mark, store, Side::Tpdo);
    }

    /// The compiled mapping of PDO k of a side, at least if the dictionary has that PDO.
    pub fn compiled(&self, side: Side, k: PdoNumber) -> Option<&Compiled>
        ensures there { (d : Description) (contents : Contents) → AreMappings d contents self.now →
            has_pdo side d.rows k ≡ true → IsSome result }
        ensures form { (d : Description) (contents : Contents) → AreMappings d contents self.now →
            IfSome result (λ compiled.
            IsCompiledForm d (mapping_of side d contents k) compiled.now) }
    {
        match side {
            Side::Rpdo => self.rpdos.compiled(k),
            Side::Tpdo => self.tpdos.compiled(k),
        }
    }
}
