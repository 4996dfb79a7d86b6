//! The object dictionary as one image: all values in one piece of memory, and the initial ones in a
//! second.
#![tactic(auto)]

mod image;
mod image_store;
mod key_numbers;
mod slot;

pub use image_store::ImageStore;
