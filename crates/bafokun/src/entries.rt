//! An entry for C.

ghost use Rattle.std.specs.Prelude.{◌≡◌};
ghost use Rattle.co_dict_table.specs.Tables.{described_view};
ghost use Rattle.bafokun.specs.Entries.{access_code, c_entry, key_named};

use co_dict_table::{DescribedEntry, EntryTable};
use co_profile::Access;
use co_value::Key;

/// An entry of a device, 24 bytes without padding if a size has 8: `struct bafokun_entry_info`.
#[repr(C)]
#[derive(Clone, Copy)]
pub struct Entry {
    /// Its index.
    pub index: u16,
    /// Its sub-index.
    pub sub_index: u8,
    /// 1 ro, 2 wo, 3 rw, 4 rwr, 5 rww, 6 const.
    pub access: u8,
    /// The code of its data type (CiA 301, 7.4.7.1).
    pub data_type: u16,
    /// The code of the original data type, if the sheet was adapted and contains it; else the same.
    pub original_type: u16,
    /// Its capacity, in bytes.
    pub capacity: usize,
    /// How many bytes it has now.
    pub length: usize,
}

impl Entry {
    /// The form of an entry for C, with `length` bytes now.
    pub(crate) fn of(described: &DescribedEntry<'_>, length: usize) -> Entry
        ensures { result ≡ c_entry (described_view described.now) length }
    {
        let facts = described.facts;
        Entry {
            index: facts.key.index,
            sub_index: facts.key.sub,
            access: access_code(facts.access),
            data_type: facts.data_type.code(),
            original_type: facts.original,
            capacity: usize::from(facts.capacity),
            length,
        }
    }
}

fn access_code(access: Access) -> u8
    ensures { result ≡ access_code access }
{
    match access {
        Access::Ro => 1,
        Access::Wo => 2,
        Access::Rw => 3,
        Access::Rwr => 4,
        Access::Rww => 5,
        Access::Constant => 6,
    }
}

/// How C names an entry.
#[derive(Clone, Copy)]
pub(crate) enum Named {
    /// By its key.
    Key(Key),
    /// By its number, from 0 on by increasing key.
    Number(usize),
}

impl Named {
    /// The key of the entry. If no entry has the number, it is 0000:00, which none has either.
    pub(crate) fn key(self, entries: &EntryTable) -> Key
        ensures { result ≡ key_named entries.now self }
    {
        match self {
            Named::Key(key) => key,
            Named::Number(number) => match entries.get(number) {
                Some(described) => described.facts.key,
                None => Key { index: 0, sub: 0 },
            },
        }
    }

    /// The number that C gave; one that no entry has, if C gave the key.
    pub(crate) fn number(self) -> usize {
        match self {
            Named::Key(_) => usize::MAX,
            Named::Number(number) => number,
        }
    }
}
