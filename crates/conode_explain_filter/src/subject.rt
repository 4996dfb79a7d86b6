//! What a filter looks at.

ghost use Rattle.std.specs.Prelude.{◌≡◌, ◌<◌};
ghost use Rattle.conode_record.specs.Grammar.{IsIdentifier};
ghost use Rattle.conode_explain_filter.specs.Subjects.{
  node_at,
  nmt_node,
  subject_at,
  subject_of,
  transfer_subject,
  written_of,
};

use crate::condition::Written;
use crate::kind::Kind;
use conode_record::{Content, Identifier, Record};

/// What a filter looks at of a frame.
#[derive(Clone, Copy)]
pub struct Subject {
    /// Its identifier.
    pub id: Written,
    /// Its kind.
    pub kind: Kind,
    /// Its node, at most 127; 0 for all nodes, `None` for none.
    pub node: Option<u8>,
}

fn written_of(id: Identifier) -> Written
    requires { IsIdentifier id }
    ensures { result ≡ written_of id }
{
    match id {
        Identifier::Base(id) => Written {
            wide: false,
            number: id as u32,
        },
        Identifier::Extended(id) => Written {
            wide: true,
            number: id,
        },
        Identifier::Error(class) => Written {
            wide: true,
            number: class + 0x2000_0000,
        },
    }
}

// the node that an NMT command of two bytes or more is for: its second byte, unless that is no node-ID
fn nmt_node(content: &Content<'_>) -> Option<u8>
    ensures { result ≡ nmt_node content.now }
{
    match content {
        Content::Data(bytes) => {
            let bytes = bytes.to_list();
            if bytes.len() > 1 && bytes[1] < 128 {
                Some(bytes[1])
            } else {
                None
            }
        }
        _ => None,
    }
}

fn node_at(kind: Kind, id: u16, content: &Content<'_>) -> Option<u8>
    ensures { result ≡ node_at kind id content.now }
{
    match kind {
        Kind::Nmt => nmt_node(content),
        Kind::Sync | Kind::Other => None,
        _ => Some((id % 128) as u8),
    }
}

// of a frame with an identifier of 11 bits
#[tactic(auto, unfolding(crate::specs::Subjects::subject_at))]
fn subject_at(pdo: Option<u8>, id: u16, content: &Content<'_>) -> Subject
    ensures { result ≡ subject_at pdo id content.now }
{
    let written = Written {
        wide: false,
        number: id as u32,
    };
    match pdo {
        Some(node) => Subject {
            id: written,
            kind: Kind::Pdo,
            node: Some(node),
        },
        None => {
            let kind = Kind::at(id);
            Subject {
                id: written,
                kind,
                node: node_at(kind, id, content),
            }
        }
    }
}

impl Subject {
    /// What a filter looks at of a frame; `pdo` is the node of a data sheet's PDO that has its
    /// identifier.
    #[tactic(auto, unfolding(crate::specs::Subjects::subject_of))]
    pub fn of(pdo: Option<u8>, frame: &Record<'_>) -> Subject
        requires { IsIdentifier frame.now.id }
        ensures { result ≡ subject_of pdo frame.now.id frame.now.content }
    {
        match (frame.id, &frame.content) {
            (Identifier::Base(id), Content::Data(_) | Content::Remote(_)) => {
                subject_at(pdo, id, &frame.content)
            }
            (id, _) => Subject {
                id: written_of(id),
                kind: Kind::Other,
                node: None,
            },
        }
    }

    /// What it looks at of a frame on the SDO channel of a node, 600h or 580h + node-ID.
    #[tactic(auto, unfolding(crate::specs::Subjects::transfer_subject))]
    pub(crate) fn of_transfer(base: u16, node: u8) -> Subject
        requires { base < 2048 }
        ensures { result ≡ transfer_subject base node }
    {
        Subject {
            id: Written {
                wide: false,
                number: base as u32 + node as u32,
            },
            kind: Kind::Sdo,
            node: Some(node),
        }
    }
}
