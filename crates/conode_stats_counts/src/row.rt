//! The frames of one identifier.

ghost use Rattle.std.specs.Prelude.{◌≡◌};
ghost use Rattle.conode_record.specs.Grammar.{IsIdentifier};
ghost use Rattle.conode_stats_counts.specs.Buses.{can_id, new_row, row_with};

use crate::tally::Tally;
use conode_record::Identifier;

/// The frames of one identifier, counted.
#[derive(Clone, Copy)]
pub struct Row {
    /// The identifier; one of 29 bits with bit 31, the class of an error frame with bit 29.
    pub can_id: u32,
    /// Its frames and their gaps.
    pub tally: Tally,
}

/// An identifier as one number.
pub(crate) fn can_id(id: Identifier) -> u32
    requires { IsIdentifier id }
    ensures { result ≡ can_id id }
{
    match id {
        Identifier::Base(id) => id as u32,
        Identifier::Extended(id) => id + 0x8000_0000,
        Identifier::Error(class) => class + 0x2000_0000,
    }
}

impl Row {
    /// A row without frames.
    pub(crate) fn new(can_id: u32) -> Row
        ensures { result ≡ new_row can_id }
    {
        Row {
            can_id,
            tally: Tally::new(),
        }
    }

    /// Counts a frame with this stamp, in microseconds.
    pub(crate) fn add(&mut self, micros: u64)
        ensures { self.new ≡ row_with micros self.old }
    {
        self.tally.add(micros);
    }
}
