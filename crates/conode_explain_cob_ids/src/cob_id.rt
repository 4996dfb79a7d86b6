//! Whose PDO an identifier is.

ghost use Rattle.std.specs.Prelude.{◌≡◌, ◌<◌, true};
ghost use Rattle.co_sheet.specs.Views.{default_view};
ghost use Rattle.conode_explain_cob_ids.specs.CobIds.{
  cob_id_of,
  has_identifier,
  is_default_rpdo,
  is_node,
  is_of,
  may_be_pdo,
  node_for,
  node_with,
  word_for,
};

use co_dict::is_restricted;
use co_sheet::Preset;

/// The COB-ID of a PDO as a data sheet has it (CiA 301, 7.5.2.35 and 7.5.2.37).
#[derive(Clone, Copy)]
pub struct SheetCobId {
    /// The word, without the node-ID where that is added.
    pub word: u32,
    /// Whether the node-ID is added.
    pub with_node: bool,
}

// one more than the greatest number of 32 bits
pub(crate) const BOUND: u64 = 0x1_0000_0000;

/// The COB-ID that an entry begins with; `None` where it has no number of 32 bits.
pub fn cob_id_of(default: Preset<'_>) -> Option<SheetCobId>
    ensures { result ≡ cob_id_of (default_view default.entry) }
{
    match default {
        Preset::Number(number) if 0 <= number && number < i128::from(BOUND) => Some(SheetCobId {
            word: number as u32,
            with_node: false,
        }),
        Preset::NodeId(number) if number < BOUND => Some(SheetCobId {
            word: number as u32,
            with_node: true,
        }),
        _ => None,
    }
}

/// Whether a PDO, or an SDO channel other than a default one, may have an identifier: it is not
/// restricted (CiA 301, 7.3.5), and not that of a default SDO channel.
pub fn may_be_pdo(id: u16) -> bool
    ensures { result ≡ may_be_pdo id }
{
    !is_restricted(id) && !matches!(id, 0x581..=0x5FF | 0x601..=0x67F)
}

/// Whether a COB-ID is valid and has this identifier of 11 bits: bits 31 and 29 are clear.
pub fn has_identifier(word: u64, id: u16) -> bool
    ensures { result ≡ has_identifier word id }
{
    (word < 0x8000_0000 && word / 0x2000_0000 % 2 == 0) && word % 0x800 == id as u64
}

/// Whether the pre-defined connection set has an identifier for an RPDO (CiA 301, 7.3.5).
pub(crate) fn is_default_rpdo(id: u16) -> bool
    ensures { result ≡ is_default_rpdo id }
{
    (2 <= id / 256 && id / 256 <= 5) && id / 128 % 2 == 0
}

pub(crate) fn is_node(node: u64) -> bool
    ensures { result ≡ is_node node }
{
    1 <= node && node <= 127
}

impl SheetCobId {
    pub(crate) fn node_for(self, only: Option<u8>, id: u16) -> u64
        ensures node { result ≡ node_for only self id }
        ensures few { result < 65536 }
    {
        match only {
            Some(node) => node as u64,
            None if self.with_node => (id as u64).saturating_sub(self.word as u64 % 0x800),
            None => id as u64 % 128,
        }
    }

    pub(crate) fn word_for(self, node: u64) -> u64
        requires { node < 65536 }
        ensures { result ≡ word_for self node }
    {
        if self.with_node {
            self.word as u64 + node
        } else {
            self.word as u64
        }
    }

    // whether an identifier is that of a node's PDO
    #[tactic(auto, unfolding(crate::specs::CobIds::is_of))]
    fn is_of(self, id: u16, node: u64) -> bool
        requires { node < 65536 }
        ensures is { result ≡ is_of self id node }
        ensures node { result ≡ true → node < 128 }
    {
        is_node(node) && has_identifier(self.word_for(node), id)
    }

    /// The node whose PDO has an identifier; `only` is the node that the data sheet is for.
    #[tactic(auto, unfolding(crate::specs::CobIds::node_with))]
    pub fn node_with(self, only: Option<u8>, id: u16) -> Option<u8>
        ensures { result ≡ node_with only self id }
    {
        let node = self.node_for(only, id);
        if self.is_of(id, node) {
            Some(node as u8)
        } else {
            None
        }
    }
}
