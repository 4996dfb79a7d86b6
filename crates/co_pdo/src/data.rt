//! The data of a PDO: its image of the mapped entries, and the writing of a received one.

ghost use Rattle.std.specs.Prelude.{◌≡◌, ◌≤◌, ◌+◌, ◌++◌, ℕ, true, List, length, map, take};
ghost use Rattle.std.specs.List.{concat};
ghost use Rattle.co_pdo.specs.declared.mapping.Mapped.{Mapped};
ghost use Rattle.co_pdo.specs.Mappings.{width_in, total_of, is_there, all_there};
ghost use Rattle.co_pdo.specs.Images.{
  bytes_in,
  image_of,
  parts_of,
  with_parts,
  is_outside,
  any_outside,
  written_in_order,
  fault_of,
  contents_after,
  answered,
};

use crate::mapping::{Mapped, Mapping};
use arrayvec::ArrayVec;
use co_dict::{ObjectStore, store_laws};

/// A fault of the data of an RPDO (CiA 301, 7.2.2 and 7.5.2.36).
#[derive(Clone, Copy)]
pub enum PdoFault {
    /// There are fewer bytes than are mapped: nothing is written.
    Short,
    /// A value is outside the limits of its entry: nothing is written.
    OutOfLimits,
    /// There are more bytes than are mapped: the first ones are written.
    Long,
}

/// Appends the bytes of a mapped object.
fn append<S: ObjectStore>(store: &S, mapped: Mapped, image: &mut ArrayVec<u8, 8>)
    requires there { is_there (S.description store.now).rows mapped ≡ true }
    requires room { length image.old.items + width_in mapped ≤ 8 }
    ensures image { image.new.items ≡ image.old.items ++ bytes_in (S.contents store.now) mapped }
    ensures width { length (bytes_in (S.contents store.now) mapped) ≡ width_in mapped }
{
    store_laws(store);
    let zeros = [0u8; 8];
    let bytes = match mapped {
        Mapped::Entry(key, _) => store.bytes(key).unwrap_or(&[]),
        Mapped::Dummy(width) => &zeros[..usize::from(width)],
    };
    let _ = image.try_extend_from_slice(bytes);
}

/// The data of a PDO, at most 8 bytes: the values of the mapped objects, in the order of the
/// mapping. The bytes of a dummy entry are 0 (CiA 301, 7.2.2).
pub fn image<S: ObjectStore>(store: &S, mapping: &Mapping) -> ArrayVec<u8, 8>
    requires { all_there (S.description store.now).rows mapping.now ≡ true }
    ensures image { result.items ≡ image_of (S.contents store.now) mapping.now }
    ensures parts { parts_of mapping.now result.items ≡
        map (bytes_in (S.contents store.now)) mapping.now }
{
    joined(store, mapping.entries())
}

/// The bytes of the mapped objects, joined.
fn joined<S: ObjectStore>(store: &S, entries: &[Mapped]) -> ArrayVec<u8, 8>
    requires there { all_there (S.description store.now).rows entries.now ≡ true }
    requires small { total_of entries.now ≤ 8 }
    ensures image { result.items ≡ image_of (S.contents store.now) entries.now }
    ensures parts { parts_of entries.now result.items ≡
        map (bytes_in (S.contents store.now)) entries.now }
{
    let mut image = ArrayVec::new();
    for mapped in entries {
        append(store, *mapped, &mut image);
    }
    image
}

/// Whether a part of the data is outside the limits of its entry.
fn is_outside<S: ObjectStore>(store: &S, mapped: Mapped, part: &[u8]) -> bool
    requires there { is_there (S.description store.now).rows mapped ≡ true }
    requires width { length part.now ≡ width_in mapped }
    ensures { result ≡ is_outside (S.description store.now).rows mapped part.now }
{
    match mapped {
        Mapped::Entry(key, _) => match store.row(key) {
            Some(row) => row.check_limits(part).is_err(),
            None => false,
        },
        Mapped::Dummy(_) => false,
    }
}

/// Whether any part of the data is outside the limits of its entry.
fn any_outside<S: ObjectStore>(store: &S, entries: &[Mapped], bytes: &[u8]) -> bool
    requires there { all_there (S.description store.now).rows entries.now ≡ true }
    requires enough { total_of entries.now ≤ length bytes.now }
    ensures { result ≡ any_outside (S.description store.now).rows entries.now bytes.now }
{
    let mut rest = bytes;
    for mapped in entries {
        let width = usize::from(mapped.width());
        if is_outside(store, *mapped, &rest[..width]) {
            return true;
        }
        rest = &rest[width..];
    }
    false
}

/// Writes each part of the data into its entry, in order.
fn write_parts<S: ObjectStore>(store: &mut S, entries: &[Mapped], bytes: &[u8])
    requires there { all_there (S.description store.old).rows entries.now ≡ true }
    requires enough { total_of entries.now ≤ length bytes.now }
    ensures contents { S.contents store.new ≡
        written_in_order (S.contents store.old) (with_parts entries.now bytes.now) }
    ensures description { S.description store.new ≡ S.description store.old }
{
    let mut rest = bytes;
    for mapped in entries {
        let width = usize::from(mapped.width());
        if let Mapped::Entry(key, _) = *mapped {
            store.set(key, &rest[..width]);
        }
        rest = &rest[width..];
    }
}

/// The parts of data, joined, are their first bytes, as many as are mapped. This is a law: a call
/// of it changes nothing.
pub fn parts_joined()
    ensures { (mapping : List Mapped) (bytes : List ℕ) →
        concat (parts_of mapping bytes) ≡ take (total_of mapping) bytes }
{}

/// Writes the data of an RPDO: each part into its entry, in the order of the mapping; the bytes of
/// dummy entries are skipped (CiA 301, 7.2.2). `Short` if there are fewer bytes than are mapped,
/// and `OutOfLimits` if a value is outside the limits of its entry: nothing is written then. `Long`
/// if there are more bytes: the first ones are written.
pub fn apply<S: ObjectStore>(store: &mut S, mapping: &Mapping, bytes: &[u8]) -> Result<(), PdoFault>
    requires { all_there (S.description store.old).rows mapping.now ≡ true }
    ensures fault { answered result ≡
        fault_of (S.description store.old).rows mapping.now bytes.now }
    ensures contents { S.contents store.new ≡
        contents_after (S.description store.old).rows mapping.now bytes.now (S.contents store.old) }
    ensures description { S.description store.new ≡ S.description store.old }
{
    if bytes.len() < mapping.width() {
        return Err(PdoFault::Short);
    }
    if any_outside(store, mapping.entries(), bytes) {
        return Err(PdoFault::OutOfLimits);
    }
    write_parts(store, mapping.entries(), bytes);
    if bytes.len() > mapping.width() {
        return Err(PdoFault::Long);
    }
    Ok(())
}
