//! One part of a compiled mapping.

ghost use Rattle.std.specs.Prelude.{◌≡◌, true};
ghost use Rattle.co_pdo.specs.declared.mapping.Mapped.{Mapped};
ghost use Rattle.co_pdo.specs.Mappings.{width_in, is_there};
ghost use Rattle.co_pdo_compiled.specs.CompiledMappings.{mapped_in, has_limits, is_limited, HasPart};

use co_dict::{ObjectStore, Row, place_laws, store_laws};
use co_pdo::Mapped;
use co_value::{DataType, Key};

/// A mapped entry with its place and its row.
#[derive(Clone, Copy)]
pub struct PlacedEntry {
    /// The key of the entry.
    pub key: Key,
    /// In bytes, 1 to 8.
    pub width: u8,
    /// Its place in the dictionary: its bytes are read and set without a search.
    pub place: u32,
    /// Its row, with its limits.
    pub row: Row,
}

/// One part of a compiled mapping.
#[derive(Clone, Copy)]
pub enum Part {
    /// An entry.
    Placed(PlacedEntry),
    /// A dummy entry of an RPDO with its width in bytes; these bytes are skipped (CiA 306, dummy
    /// usage).
    PassedOver(u8),
}

/// Whether any value of this row's type is outside its limits.
fn has_limits(row: &Row) -> bool
    ensures { result ≡ has_limits row.now }
{
    if row.data_type == DataType::Boolean {
        return true;
    }
    let above = match row.data_type.least() {
        Some(least) => least < row.low,
        None => false,
    };
    let below = match row.data_type.greatest() {
        Some(greatest) => row.high < greatest,
        None => false,
    };
    above || below
}

impl Part {
    /// The part of a mapped object: its place and its row are looked up.
    pub(crate) fn of<S: ObjectStore>(store: &S, mapped: Mapped) -> Part
        requires { is_there (S.description store.now).rows mapped ≡ true }
        ensures mapped { mapped_in result ≡ mapped }
        ensures has { HasPart (S.description store.now) result }
    {
        store_laws(store);
        place_laws(store);
        match mapped {
            Mapped::Entry(key, width) => match (store.place(key), store.row(key)) {
                (Some(place), Some(row)) => Part::Placed(PlacedEntry {
                    key,
                    width,
                    place,
                    row,
                }),
                _ => Part::PassedOver(width),
            },
            Mapped::Dummy(width) => Part::PassedOver(width),
        }
    }

    /// Whether it maps an entry with limits.
    pub(crate) fn is_limited(&self) -> bool
        ensures { result ≡ is_limited self.now }
    {
        match self {
            Part::Placed(entry) => has_limits(&entry.row),
            Part::PassedOver(_) => false,
        }
    }

    /// The mapped object.
    pub(crate) fn mapped(&self) -> Mapped
        ensures { result ≡ mapped_in self.now }
    {
        match self {
            Part::Placed(entry) => Mapped::Entry(entry.key, entry.width),
            Part::PassedOver(width) => Mapped::Dummy(*width),
        }
    }

    /// The width in bytes.
    pub(crate) fn width(&self) -> u8
        ensures { result ≡ width_in (mapped_in self.now) }
    {
        match self {
            Part::Placed(entry) => entry.width,
            Part::PassedOver(width) => *width,
        }
    }
}

/// The blank element of a list of fixed capacity: a dummy entry of no bytes.
impl Default for Part {
    ghost use Rattle.std.specs.Prelude.{◌≡◌};
    ghost use Rattle.co_pdo_compiled.specs.declared.part.Part.TheVariants.{PassedOver};

    ghost is_default = { λ part. part ≡ PassedOver 0 };

    fn default() -> Part {
        Part::PassedOver(0)
    }
}
