//! The values of an object dictionary: keys, data types, and numbers as bytes.
#![tactic(auto)]

mod data_type;
mod key;
mod little_endian;
mod packed_bytes;
mod value;

pub use data_type::DataType;
pub use key::Key;
pub use little_endian::{bytes_of_u32, read_u8, read_u16, read_u32};
pub use packed_bytes::{PackedBytes, unsigned_of};
pub use value::{ValueFault, from_bytes, one_spelling, to_bytes, way_back};
