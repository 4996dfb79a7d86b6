//! What is known of an entry besides its bytes.

use co_profile::Access;
use co_value::DataType;

/// An entry of the object dictionary, without its key and its bytes (CiA 301, 7.4).
#[derive(Clone, Copy)]
pub struct Row {
    pub data_type: DataType,
    pub access: Access,
    /// The smallest number that may be written; 0 at a string or a domain, which have no limits.
    pub low: i128,
    /// The greatest number that may be written; 0 at a string or a domain.
    pub high: i128,
    /// How many bytes the entry has room for, 0 to 65,535; the width of a numeric type.
    pub capacity: u16,
    /// Whether the entry may be mapped into a PDO (PDOMapping in its data sheet).
    pub mappable: bool,
}
