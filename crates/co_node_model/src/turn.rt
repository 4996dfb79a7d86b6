//! What an input is to the schedule of TPDOs.

use crate::mark::Asked;
use co_pdo::{Part, PdoNumber};

/// What an input is to the schedule of TPDOs (CiA 301, 7.2.2.2 to 7.2.2.4).
#[derive(Clone, Copy)]
pub enum Turn {
    /// Nothing: it doesn't concern TPDOs, or the NMT state isn't operational.
    Quiet,
    /// NMT state operational was entered: all TPDOs start.
    StartAll,
    /// A communication parameter of the TPDO with this number was written: the whole TPDO starts,
    /// or its event timer alone.
    Start(PdoNumber, Part),
    /// A SYNC, with its counter if its data are exactly one byte.
    Sync(Option<u8>),
    /// An application event of TPDOs.
    Asked(Asked),
    /// 1 ms elapsed.
    Tick,
}
