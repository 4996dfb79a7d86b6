//! The objects mapped into a PDO.

ghost use Rattle.std.specs.Prelude.{◌≡◌, ◌≤◌, true, None, IfSome};
ghost use Rattle.co_dict.specs.MappingCounts.{is_mapping_index, count_refusal};
ghost use Rattle.co_pdo.specs.Mappings.{mapped_by, mapped_words, mapping_of, width_in, total_of, all_there};

use crate::pdos::{has_pdo, mapping_index};
use arrayvec::ArrayVec;
use co_dict::{
    MappingWord, ObjectStore, Side, check_count, mapping_word, number_u8, usable_dummy, word_width,
};
use co_profile::PdoNumber;
use co_value::Key;
use std::marker::Model;

/// An object mapped into a PDO, with its width in bytes, 1 to 8.
#[derive(Clone, Copy)]
pub enum Mapped {
    /// An entry.
    Entry(Key, u8),
    /// A dummy entry of an RPDO, whose bytes are skipped (CiA 306, dummy usage).
    Dummy(u8),
}

impl Mapped {
    /// The width in bytes.
    pub fn width(self) -> u8
        ensures { result ≡ width_in self }
    {
        match self {
            Mapped::Entry(_, width) | Mapped::Dummy(width) => width,
        }
    }

    /// The object that a mapping word maps on a side, if it is valid there.
    fn by_word<S: ObjectStore>(store: &S, side: Side, word: MappingWord) -> Option<Mapped>
        ensures value { result ≡ mapped_by side (S.description store.now) word.0 }
        ensures width { IfSome result (λ mapped. 1 ≤ width_in mapped) }
    {
        let width = word_width(store, side, word)?;
        match usable_dummy(store, side, word.key().index) {
            Some(_) => Some(Mapped::Dummy(width)),
            None => Some(Mapped::Entry(word.key(), width)),
        }
    }
}

/// The blank element of a list of fixed capacity: a dummy entry of no bytes.
impl Default for Mapped {
    ghost use Rattle.std.specs.Prelude.{◌≡◌};
    ghost use Rattle.co_pdo.specs.declared.mapping.Mapped.TheVariants.{Dummy};

    ghost is_default = { λ mapped. mapped ≡ Dummy 0 };

    fn default() -> Mapped {
        Mapped::Dummy(0)
    }
}

/// The objects mapped into a PDO, in the order of its data: at most 8 bytes in all (CiA 301,
/// 7.5.2.36 and 7.5.2.38).
#[derive(Drop)]
pub struct Mapping {
    entries: ArrayVec<Mapped, 8>,
}

impl Model for Mapping {
    ghost use Rattle.std.specs.Prelude.{List, ◌≤◌};
    ghost use Rattle.co_pdo.specs.declared.mapping.Mapped.{Mapped};
    ghost use Rattle.co_pdo.specs.Mappings.{total_of};

    ghost Value = { List Mapped };

    ghost view = { λ m. m.entries.items };

    ghost invariant = { λ m. total_of m.entries.items ≤ 8 };
}

/// The objects of the first `count` words of a mapping parameter, if its own rule permits that
/// count.
fn read_words<S: ObjectStore>(store: &S, side: Side, index: u16, count: u8) -> ArrayVec<Mapped, 8>
    requires index { is_mapping_index side index ≡ true }
    requires count { count_refusal side (S.description store.now) (S.contents store.now) index count
        ≡ None }
    ensures mapping { result.items ≡
        mapped_words side (S.description store.now) (S.contents store.now) index count }
    ensures total { total_of result.items ≤ 8 }
    ensures there { all_there (S.description store.now).rows result.items ≡ true }
{
    let mut entries = ArrayVec::new();
    for earlier in 0..count {
        let word = mapping_word(store, side, index, earlier + 1);
        if let Some(mapped) = Mapped::by_word(store, side, word) {
            entries.push(mapped);
        }
    }
    entries
}

impl Mapping {
    /// The mapping of PDO k of a side: the objects of its counted words. It is empty if there is no
    /// such PDO, if its count is 0, and if the rule of that count would refuse it on a PDO that is
    /// not valid.
    pub fn read<S: ObjectStore>(store: &S, side: Side, k: PdoNumber) -> Mapping
        ensures mapping { result ≡
            mapping_of side (S.description store.now) (S.contents store.now) k }
        ensures there { all_there (S.description store.now).rows result ≡ true }
    {
        let index = mapping_index(side, k);
        let count = number_u8(store, Key { index, sub: 0 });
        let entries = if has_pdo(store, side, k) && check_count(store, side, index, count).is_ok() {
            read_words(store, side, index, count)
        } else {
            ArrayVec::new()
        };
        Mapping { entries }
    }

    /// The mapped objects, in the order of the data: at most 8, since each is at least 1 byte wide.
    pub fn entries(&self) -> &[Mapped]
        ensures entries { result.now ≡ self.now }
        ensures small { total_of self.now ≤ 8 }
    {
        &self.entries
    }

    /// How many bytes are mapped in all, 0 to 8.
    pub fn width(&self) -> usize
        ensures value { result ≡ total_of self.now }
        ensures small { result ≤ 8 }
    {
        self.entries
            .iter()
            .map(|mapped| usize::from(mapped.width()))
            .sum()
    }
}
