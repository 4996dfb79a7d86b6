//! Laws about SDO transfers in which frames are lost or repeated, and either end may time out:
//! client and server's channel together. A call of a law changes nothing.
#![tactic(auto)]

mod disturbed;

pub use disturbed::{block_download, block_upload, download, upload};
