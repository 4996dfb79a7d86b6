//! The text of a CAN frame as an engineer reads it: its service, its node, and what it says
//! (CiA 301); and a trace of such frames, decoded line by line.
#![tactic(auto)]

// As `?`, without a conversion of the error: a `match` is one step of a proof where `?` is three.
macro_rules! attempt {
    ($result:expr) => {
        match $result {
            Ok(value) => value,
            Err(fault) => return Err(fault),
        }
    };
}

mod decode_file;
mod decoded_trace;
mod line;
mod names;
mod node_services;
mod numbers;
mod sdo_texts;
mod service;

pub use decode_file::{decode_files, decode_input};
pub use decoded_trace::decode;
pub use line::set_decoded_line;
pub use node_services::push_text;
