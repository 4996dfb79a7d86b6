//! The SDO server of a CANopen device: one channel over an object dictionary (CiA 301, 7.2.4.3).
#![tactic(auto)]

mod bank;
mod block_download;
mod block_upload;
mod channel;
mod channels;
mod download;
mod laws;
mod refusals;
mod request;
mod sender;
mod stage;
mod time;
mod upload;

pub use bank::Bank;
pub use channel::Channel;
pub use co_frame::Ids;
