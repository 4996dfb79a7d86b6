//! The text of a value, by its data type and its bits.
#![tactic(auto)]

// As `?` of a result without a value, and without a conversion of the error: a `match` is one step
// of a proof where `?` is three.
macro_rules! attempt {
    ($result:expr) => {
        match $result {
            Ok(()) => {}
            Err(fault) => return Err(fault),
        }
    };
}

// The same of a result with a value.
macro_rules! attempt_value {
    ($result:expr) => {
        match $result {
            Ok(value) => value,
            Err(fault) => return Err(fault),
        }
    };
}

mod bytes;
mod entry;
mod numbers;
mod real;
mod real_digits;
mod reals;
mod scaled;
mod times;
mod unicode;
mod value;
mod value_type;

pub use entry::{push_entry, push_named_key};
pub use reals::real_digits_are_read;
pub use value::push_value;
pub use value_type::ValueType;
