//! The SDO client of a CANopen device: one download or upload over a server's channel (CiA 301,
//! 7.2.4.3).
#![tactic(auto)]

mod answers;
mod block_download;
mod block_upload;
mod calls;
mod client;
mod direction;
mod download;
mod mode;
mod sending;
mod stage;
mod state;
mod transfer;
mod upload;

pub use client::Client;
pub use co_frame::Ids;
pub use mode::Mode;
pub use state::ClientState;
