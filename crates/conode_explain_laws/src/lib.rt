//! Laws about `explain` and both ends of an SDO transfer: what is said of a recorded transfer is
//! what the server's channel made of it, or the client. A call of a law changes nothing.
#![tactic(auto)]

mod clients;
mod downloads;
mod uploads;

pub use clients::client_transfers;
pub use downloads::all_downloads;
pub use uploads::all_uploads;
