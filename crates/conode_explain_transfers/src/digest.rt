//! What is kept of the data of a transfer.

ghost use Rattle.std.specs.Prelude.{◌≡◌, ◌+◌, ◌≤◌, ◌++◌, length, take};
ghost use Rattle.conode_explain_transfers.specs.Digests.{no_bytes, digest_with, shown_bytes};

use crate::crc::crc_from;
use arrayvec::ArrayVec;

/// How many bytes of a transfer are kept.
pub(crate) const SHOWN_BYTES: usize = 64;

/// What is kept of the data of a transfer: the number of bytes (up to 2^64 - 1), their CRC, and the
/// first 64.
#[derive(Drop)]
pub(crate) struct Digest {
    pub(crate) count: u64,
    pub(crate) crc: u16,
    pub(crate) first: ArrayVec<u8, 64>,
}

// as many of the bytes as there is room for
fn first_of(bytes: &[u8], room: usize) -> &[u8]
    ensures bytes { result.now ≡ take room bytes.now }
    ensures fits { length result.now ≤ room }
{
    if room < bytes.len() {
        &bytes[..room]
    } else {
        bytes
    }
}

// Appends bytes to the first 64, as long as there is room.
#[tactic(auto, using(crate::proofs::Kept::kept))]
fn keep(first: &mut ArrayVec<u8, 64>, bytes: &[u8])
    ensures { first.new.items ≡ take shown_bytes (first.old.items ++ bytes.now) }
{
    let room = first.remaining_capacity();
    first.try_extend_from_slice(first_of(bytes, room)).unwrap();
}

impl Digest {
    /// The digest of no data.
    pub(crate) fn new() -> Digest
        ensures { result ≡ no_bytes }
    {
        Digest {
            count: 0,
            crc: 0,
            first: ArrayVec::new(),
        }
    }

    /// Adds the next bytes.
    pub(crate) fn add(&mut self, bytes: &[u8])
        ensures { self.new ≡ digest_with self.old bytes.now }
    {
        self.count = self.count.saturating_add(bytes.len() as u64);
        self.crc = crc_from(self.crc, bytes);
        keep(&mut self.first, bytes);
    }
}
