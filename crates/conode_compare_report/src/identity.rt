//! What a recording shows of the identity object.

ghost use Rattle.std.specs.Prelude.{◌≡◌};
ghost use Rattle.conode_compare_report.specs.Identities.{
  identity_at,
  identity_with,
  is_identity_read,
};

use crate::occasions::is_done;
use co_profile::IDENTITY;
use conode_compare_values::shown_number;
use conode_explain_transfers::{Direction, Ended};

/// The numbers of the identity object that the recording shows (CiA 301, 7.5.2.21): of each the
/// newest that was uploaded.
#[derive(Clone, Copy)]
pub struct Identity {
    /// The revision number, 1018:03.
    pub revision: Option<u64>,
    /// The serial number, 1018:04.
    pub serial: Option<u64>,
}

// whether a transfer is an upload of the identity object, that was confirmed, of four bytes
fn is_read(ended: &Ended) -> bool
    ensures { result ≡ is_identity_read ended.now }
{
    let is_upload = matches!(ended.direction, Direction::Upload);
    ended.key.index == IDENTITY && is_upload && is_done(ended.ending) && ended.bytes == 4
}

impl Identity {
    // the number of a sub-index
    fn set(&mut self, sub: u8, number: Option<u64>)
        ensures { self.new ≡ identity_at sub number self.old }
    {
        if sub == 3 {
            self.revision = number;
        } else if sub == 4 {
            self.serial = number;
        }
    }

    /// A transfer ended.
    pub(crate) fn note(&mut self, ended: &Ended)
        ensures { self.new ≡ identity_with ended.now self.old }
    {
        if is_read(ended) {
            self.set(ended.key.sub, shown_number(4, ended.first.as_slice()));
        }
    }
}
