//! The entries of a data sheet.

use co_profile::Access;
use co_value::{DataType, Key};

/// The value that an entry begins with, by its ParameterValue, or where there is none by its
/// DefaultValue (CiA 306, object description, device configuration file).
#[derive(Clone, Copy)]
pub enum Preset<'a> {
    /// There is neither, or the entry is a DOMAIN.
    Absent,
    /// The number of a numeric entry.
    Number(i128),
    /// The node-ID plus this number, of a numeric entry.
    NodeId(u64),
    /// The bytes of a VISIBLE_STRING.
    Text(&'a [u8]),
    /// Pairs of hexadecimal digits, one for each byte of an OCTET_STRING.
    Pairs(&'a [u8]),
}

/// What a data sheet says of one entry (CiA 306, object description).
#[derive(Clone, Copy)]
pub struct EntryRow<'a> {
    pub key: Key,
    pub data_type: DataType,
    pub access: Access,
    /// LowLimit, where a numeric entry has one.
    pub low: Option<i128>,
    /// HighLimit, where a numeric entry has one.
    pub high: Option<i128>,
    /// ParameterValue where it is there, else DefaultValue.
    pub default: Preset<'a>,
    /// Whether PDOMapping is there and not 0.
    pub mappable: bool,
    /// ParameterName, where it is there.
    pub name: Option<&'a [u8]>,
    /// The line of the entry's section, from 1.
    pub line: usize,
}
