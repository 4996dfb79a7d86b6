//! A compiled mapping.

ghost use Rattle.std.specs.Prelude.{◌≡◌, ◌≤◌, true, length};
ghost use Rattle.std.specs.List.{list_any};
ghost use Rattle.co_pdo.specs.Mappings.{mapping_of, total_of, all_there};
ghost use Rattle.co_pdo_compiled.specs.CompiledMappings.{mapping_in, is_limited, IsCompiledForm, HasParts};

use crate::part::Part;
use arrayvec::ArrayVec;
use co_dict::{ObjectStore, Side};
use co_pdo::{Mapped, Mapping, PdoNumber};
use std::marker::Model;

/// The objects mapped into a PDO, in the order of its data, with the places and rows of their
/// entries (CiA 301, 7.5.2.36 and 7.5.2.38). It is valid until the mapping parameter is written: no
/// call of a dictionary changes places or rows.
#[derive(Drop)]
pub struct Compiled {
    parts: ArrayVec<Part, 8>,
    // how many bytes are mapped in all
    width: usize,
    // some entry has limits
    limited: bool,
}

impl Model for Compiled {
    ghost use Rattle.std.specs.Prelude.{List};
    ghost use Rattle.co_pdo_compiled.specs.declared.part.Part.{Part};
    ghost use Rattle.co_pdo_compiled.specs.CompiledMappings.{AreSummed};

    ghost Value = { List Part };

    ghost view = { λ c. c.parts.items };

    ghost invariant = { λ c. AreSummed c.parts.items c.width c.limited };
}

/// Whether any of these parts maps an entry with limits.
fn any_limited(parts: &[Part]) -> bool
    ensures { result ≡ list_any is_limited parts.now }
{
    parts.iter().any(|part| part.is_limited())
}

/// The parts of a mapping.
fn parts_of<S: ObjectStore>(store: &S, entries: &[Mapped]) -> ArrayVec<Part, 8>
    requires there { all_there (S.description store.now).rows entries.now ≡ true }
    requires few { length entries.now ≤ 8 }
    ensures mapping { mapping_in result.items ≡ entries.now }
    ensures has { HasParts (S.description store.now) result.items }
{
    let mut parts = ArrayVec::new();
    for mapped in entries {
        parts.push(Part::of(store, *mapped));
    }
    parts
}

impl Compiled {
    /// The compiled form of the mapping of PDO k of a side, as `Mapping::read` reads it from the
    /// dictionary now.
    pub fn of<S: ObjectStore>(store: &S, side: Side, k: PdoNumber) -> Compiled
        ensures { IsCompiledForm (S.description store.now)
            (mapping_of side (S.description store.now) (S.contents store.now) k) result }
    {
        let mapping = Mapping::read(store, side, k);
        let parts = parts_of(store, mapping.entries());
        let width = mapping.width();
        let limited = any_limited(&parts);
        Compiled {
            parts,
            width,
            limited,
        }
    }

    /// The mapped objects, in the order of the data.
    pub fn mapped(&self) -> ArrayVec<Mapped, 8>
        ensures { result.items ≡ mapping_in self.now }
    {
        let mut mapped = ArrayVec::new();
        for part in self.parts() {
            mapped.push(part.mapped());
        }
        mapped
    }

    /// How many bytes are mapped in all, 0 to 8.
    pub fn width(&self) -> usize
        ensures value { result ≡ total_of (mapping_in self.now) }
        ensures small { result ≤ 8 }
    {
        self.width
    }

    /// Whether any part maps an entry with limits; if none does, no data are out of limits.
    pub(crate) fn is_limited(&self) -> bool
        ensures { result ≡ list_any is_limited self.now }
    {
        self.limited
    }

    /// The parts, in the order of the data.
    pub(crate) fn parts(&self) -> &[Part]
        ensures parts { result.now ≡ self.now }
        ensures few { length self.now ≤ 8 }
        ensures small { total_of (mapping_in self.now) ≤ 8 }
    {
        &self.parts
    }
}
