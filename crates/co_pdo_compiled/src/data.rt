//! The data of a PDO by its compiled mapping.

ghost use Rattle.std.specs.Prelude.{◌≡◌, ◌≤◌, ◌+◌, ◌++◌, ◌∷◌, [], Some, is_some, length};
ghost use Rattle.co_value.specs.Numbers.{number_of};
ghost use Rattle.co_value.specs.declared.data_type.DataType.TheVariants.{Integer16, Unsigned8};
ghost use Rattle.co_dict.specs.WriteRefusals.{limit_refusal};
ghost use Rattle.co_pdo.specs.Mappings.{width_in, total_of};
ghost use Rattle.co_pdo.specs.Images.{
  bytes_in,
  image_of,
  with_parts,
  is_outside,
  any_outside,
  written_in_order,
  fault_of,
  contents_after,
  answered,
};
ghost use Rattle.co_dict_placed.specs.Changes.{with_keys};
ghost use Rattle.co_pdo_compiled.specs.CompiledMappings.{mapped_in, mapping_in, HasEntry, HasPart, HasParts};
ghost use Rattle.co_pdo_compiled.specs.SetEntries.{keys_in, keys_set};

use crate::compiled::Compiled;
use crate::part::{Part, PlacedEntry};
use co_dict::{ObjectStore, Row, place_laws, store_laws};
use co_dict_placed::note_change;
use co_pdo::PdoFault;
use co_value::{DataType, PackedBytes};

/// The bytes of an entry.
#[inline(always)]
fn bytes_of<'a, S: ObjectStore>(store: &'a S, entry: &PlacedEntry) -> &'a [u8]
    requires { HasEntry (S.description store.now) entry.now }
    ensures bytes { S.contents store.now entry.now.key ≡ Some result.now }
    ensures width { length result.now ≡ entry.now.width }
{
    store_laws(store);
    place_laws(store);
    match store.bytes_at(entry.place) {
        Some(bytes) => bytes,
        None => unreachable!(),
    }
}

/// Appends the bytes of a mapped object.
#[inline(always)]
fn append<S: ObjectStore>(store: &S, part: &Part, image: &mut PackedBytes)
    requires has { HasPart (S.description store.now) part.now }
    requires room { length image.old + width_in (mapped_in part.now) ≤ 8 }
    ensures image { image.new ≡ image.old ++ bytes_in (S.contents store.now) (mapped_in part.now) }
    ensures width { length (bytes_in (S.contents store.now) (mapped_in part.now)) ≡
        width_in (mapped_in part.now) }
{
    match part {
        Part::Placed(entry) => image.append(bytes_of(store, entry)),
        Part::PassedOver(width) => image.append(&[0; 8][..usize::from(*width)]),
    }
}

/// The bytes of the mapped objects, joined.
#[inline(always)]
fn joined<S: ObjectStore>(store: &S, parts: &[Part]) -> PackedBytes
    requires has { HasParts (S.description store.now) parts.now }
    requires small { total_of (mapping_in parts.now) ≤ 8 }
    ensures { result ≡ image_of (S.contents store.now) (mapping_in parts.now) }
{
    let mut image = PackedBytes::new();
    for part in parts {
        append(store, part, &mut image);
    }
    image
}

/// The data of a PDO, as `image` makes them of the compiled mapping, packed for a frame (CiA 301,
/// 7.2.2). The dictionary has to have the mapped entries with the rows and at the places that they
/// were compiled with: no call of a dictionary changes these.
#[inline(always)]
pub fn image_at<S: ObjectStore>(store: &S, compiled: &Compiled) -> PackedBytes
    requires { HasParts (S.description store.now) compiled.now }
    ensures { result ≡ image_of (S.contents store.now) (mapping_in compiled.now) }
{
    joined(store, compiled.parts())
}

/// The number of one byte of UNSIGNED8.
fn number_of_byte(bytes: &[u8]) -> i128
    requires { length bytes.now ≡ 1 }
    ensures { result ≡ number_of Unsigned8 bytes.now }
{
    i128::from(bytes[0])
}

/// The number of two bytes of INTEGER16, in two's complement.
fn number_of_two(bytes: &[u8]) -> i128
    requires { length bytes.now ≡ 2 }
    ensures { result ≡ number_of Integer16 bytes.now }
{
    let number = 256 * i128::from(bytes[1]) + i128::from(bytes[0]);
    if number < 32768 {
        number
    } else {
        number - 65536
    }
}

/// Whether one byte is outside the limits of an UNSIGNED8 entry. Most mapped entries have that
/// type, and `check_limits` takes longer to look up width and sign of a type than to compare.
#[inline(always)]
fn is_byte_outside(row: &Row, bytes: &[u8]) -> bool
    requires kind { row.now.data_type ≡ Unsigned8 }
    requires one { length bytes.now ≡ 1 }
    ensures { result ≡ is_some (limit_refusal row.now bytes.now) }
{
    let number = number_of_byte(bytes);
    if number > row.high {
        return true;
    }
    number < row.low
}

/// The same for two bytes of INTEGER16, the type of most analogue values.
#[inline(always)]
fn are_two_outside(row: &Row, bytes: &[u8]) -> bool
    requires kind { row.now.data_type ≡ Integer16 }
    requires two { length bytes.now ≡ 2 }
    ensures { result ≡ is_some (limit_refusal row.now bytes.now) }
{
    let number = number_of_two(bytes);
    if number > row.high {
        return true;
    }
    number < row.low
}

/// Whether a part of the data is outside the limits of its entry.
fn is_outside<S: ObjectStore>(_store: &S, part: &Part, bytes: &[u8]) -> bool
    requires has { HasPart (S.description _store.now) part.now }
    requires width { length bytes.now ≡ width_in (mapped_in part.now) }
    ensures { result ≡ is_outside (S.description _store.now).rows (mapped_in part.now) bytes.now }
{
    match part {
        Part::Placed(entry) => match entry.row.data_type {
            DataType::Unsigned8 => is_byte_outside(&entry.row, bytes),
            DataType::Integer16 => are_two_outside(&entry.row, bytes),
            _ => entry.row.check_limits(bytes).is_err(),
        },
        Part::PassedOver(_) => false,
    }
}

/// Whether any part of the data is outside the limits of its entry.
fn any_outside<S: ObjectStore>(store: &S, parts: &[Part], bytes: &[u8]) -> bool
    requires has { HasParts (S.description store.now) parts.now }
    requires enough { total_of (mapping_in parts.now) ≤ length bytes.now }
    ensures { result ≡
        any_outside (S.description store.now).rows (mapping_in parts.now) bytes.now }
{
    let mut rest = bytes;
    for part in parts {
        let width = usize::from(part.width());
        if is_outside(store, part, &rest[..width]) {
            return true;
        }
        rest = &rest[width..];
    }
    false
}

/// Whether any part of the data is outside the limits of its entry. The data aren't read if no
/// entry has limits.
fn is_any_outside<S: ObjectStore>(store: &S, compiled: &Compiled, bytes: &[u8]) -> bool
    requires has { HasParts (S.description store.now) compiled.now }
    requires enough { total_of (mapping_in compiled.now) ≤ length bytes.now }
    ensures { result ≡
        any_outside (S.description store.now).rows (mapping_in compiled.now) bytes.now }
{
    compiled.is_limited() && any_outside(store, compiled.parts(), bytes)
}

/// Writes a part of the data into its entry, and notes that it changed.
#[inline(always)]
fn write_part<S: ObjectStore>(store: &mut S, part: &Part, bytes: &[u8], changes: &mut [u8])
    requires has { HasPart (S.description store.old) part.now }
    requires width { length bytes.now ≡ width_in (mapped_in part.now) }
    ensures contents { S.contents store.new ≡
        written_in_order (S.contents store.old) ((mapped_in part.now, bytes.now) ∷ []) }
    ensures description { S.description store.new ≡ S.description store.old }
    ensures changes { changes.new ≡
        with_keys (S.description store.old) (keys_in (mapped_in part.now ∷ [])) changes.old }
{
    place_laws(store);
    if let Part::Placed(entry) = part {
        store.set_at(entry.place, bytes);
        note_change(changes, entry.place as usize);
    }
}

/// Writes each part of the data into its entry, in order, and notes that these changed.
fn write_parts<S: ObjectStore>(store: &mut S, parts: &[Part], bytes: &[u8], changes: &mut [u8])
    requires has { HasParts (S.description store.old) parts.now }
    requires enough { total_of (mapping_in parts.now) ≤ length bytes.now }
    ensures contents { S.contents store.new ≡
        written_in_order (S.contents store.old) (with_parts (mapping_in parts.now) bytes.now) }
    ensures description { S.description store.new ≡ S.description store.old }
    ensures changes { changes.new ≡
        with_keys (S.description store.old) (keys_in (mapping_in parts.now)) changes.old }
{
    let mut rest = bytes;
    for part in parts {
        let width = usize::from(part.width());
        write_part(store, part, &rest[..width], changes);
        rest = &rest[width..];
    }
}

/// Writes the data of an RPDO, as `apply` does with the compiled mapping: each part into its entry,
/// in the order of the mapping; the bytes of dummy entries are skipped (CiA 301, 7.2.2). `Short` if
/// there are fewer bytes than are mapped, and `OutOfLimits` if a value is outside the limits of its
/// entry: nothing is written then. `Long` if there are more bytes: the first ones are written. The
/// entries that are written are noted in `changes`. The dictionary has to have the mapped entries
/// with the rows and at the places that they were compiled with: no call of a dictionary changes
/// these.
pub fn apply_at<S: ObjectStore>(
    store: &mut S,
    compiled: &Compiled,
    bytes: &[u8],
    changes: &mut [u8],
) -> Result<(), PdoFault>
    requires { HasParts (S.description store.old) compiled.now }
    ensures fault { answered result ≡
        fault_of (S.description store.old).rows (mapping_in compiled.now) bytes.now }
    ensures contents { S.contents store.new ≡ contents_after (S.description store.old).rows
        (mapping_in compiled.now) bytes.now (S.contents store.old) }
    ensures description { S.description store.new ≡ S.description store.old }
    ensures changes { changes.new ≡ with_keys (S.description store.old) (keys_set
        (S.description store.old).rows (mapping_in compiled.now) bytes.now) changes.old }
{
    if bytes.len() < compiled.width() {
        return Err(PdoFault::Short);
    }
    if is_any_outside(store, compiled, bytes) {
        return Err(PdoFault::OutOfLimits);
    }
    write_parts(store, compiled.parts(), bytes, changes);
    if bytes.len() > compiled.width() {
        return Err(PdoFault::Long);
    }
    Ok(())
}
