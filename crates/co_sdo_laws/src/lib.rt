//! Laws about the client and the server's channel of an SDO transfer together, with a queue of
//! frames each way: a transfer without loss, repetition or timeout completes. A call of a law
//! changes nothing.
#![tactic(auto)]

mod chain;
mod undisturbed;

pub use chain::successive_transfers;
pub use undisturbed::{
    block_download, block_upload, expedited_download, segmented_download, upload,
};
