//! What one word of a filter asks for.

ghost use Rattle.std.specs.Prelude.{◌≡◌};
ghost use Rattle.std.specs.Option.{option_copied};
ghost use Rattle.conode_explain_filter.specs.Conditions.{
  condition_in,
  holds,
  id_condition,
  is_between,
  node_condition,
  range_of,
  written_in,
};

use crate::kind::Kind;
use crate::moment::Moment;
use crate::option::FilterOption;
use crate::subject::Subject;
use co_text::{decimal_in, split_at_first};
use conode_explain_text::Times;
use conode_record::hex_number;

/// An identifier as it is written.
#[derive(Clone, Copy)]
pub struct Written {
    /// Whether it has eight digits: one of 29 bits, or an error frame with bit 29 set; else it has
    /// three.
    pub wide: bool,
    /// Its number.
    pub number: u32,
}

/// What one word of a filter asks for.
#[derive(Clone, Copy)]
pub enum Condition {
    /// Frames of a node.
    Node(u8),
    /// Identifiers from one to another, both of them included.
    Ids(Written, Written),
    /// Frames of a kind.
    OfKind(Kind),
    /// Frames at a time or later.
    From(Moment),
    /// Frames at a time or before.
    Until(Moment),
}

// the identifier that a word is: one to three digits up to 7FF, or eight up to 3FFFFFFF
#[tactic(auto, unfolding(crate::specs::Conditions::written_in))]
fn written_in(word: &[u8]) -> Option<Written>
    ensures { result ≡ written_in word.now }
{
    if word.is_empty() || (word.len() > 3 && word.len() != 8) {
        return None;
    }
    let wide = word.len() == 8;
    let Some(number) = hex_number(word) else {
        return None;
    };
    let most = if wide { 0x3FFF_FFFF } else { 0x7FF };
    if number <= most {
        Some(Written { wide, number })
    } else {
        None
    }
}

fn is_between(first: Written, last: Written, id: Written) -> bool
    ensures { result ≡ is_between first last id }
{
    first.wide == id.wide && first.number <= id.number && id.number <= last.number
}

#[tactic(auto, unfolding(crate::specs::Conditions::range_of))]
fn range_of(first: Written, last: Written) -> Option<Condition>
    ensures { result ≡ range_of first last }
{
    if first.wide == last.wide && first.number <= last.number {
        Some(Condition::Ids(first, last))
    } else {
        None
    }
}

// identifiers: one, or two with a hyphen between them
#[tactic(auto, unfolding(crate::specs::Conditions::id_condition))]
fn id_condition(word: &[u8]) -> Option<Condition>
    ensures { result ≡ id_condition word.now }
{
    match split_at_first(word, b'-') {
        Some((first, last)) => match (written_in(first), written_in(last)) {
            (Some(first), Some(last)) => range_of(first, last),
            _ => None,
        },
        None => match written_in(word) {
            Some(id) => range_of(id, id),
            None => None,
        },
    }
}

fn node_condition(word: &[u8]) -> Option<Condition>
    ensures { result ≡ node_condition word.now }
{
    match decimal_in(word, 1, 127) {
        Some(node) => Some(Condition::Node(node as u8)),
        None => None,
    }
}

impl Condition {
    /// What a word of an option asks for; `None` where it is no such word.
    #[tactic(auto, unfolding(crate::specs::Conditions::condition_in))]
    pub(crate) fn read(option: FilterOption, word: &str) -> Option<Condition>
        ensures { result ≡ condition_in option word.now }
    {
        match option {
            FilterOption::Of => node_condition(word.as_bytes()),
            FilterOption::Id => id_condition(word.as_bytes()),
            FilterOption::Kind => match Kind::read(word) {
                Some(kind) => Some(Condition::OfKind(kind)),
                None => None,
            },
            FilterOption::From => match Moment::read(word.as_bytes()) {
                Some(moment) => Some(Condition::From(moment)),
                None => None,
            },
            FilterOption::To => match Moment::read(word.as_bytes()) {
                Some(moment) => Some(Condition::Until(moment)),
                None => None,
            },
        }
    }

    /// Whether a frame with these times is one of those asked for. An NMT command to all nodes is
    /// of each.
    pub(crate) fn holds(&self, subject: &Subject, times: Times) -> bool
        ensures { result ≡ holds subject.now times self.now }
    {
        match *self {
            Condition::Node(node) => match subject.node {
                Some(of) => of == 0 || of == node,
                None => false,
            },
            Condition::Ids(first, last) => is_between(first, last, subject.id),
            Condition::OfKind(kind) => subject.kind == kind,
            Condition::From(moment) => moment.is_from(times),
            Condition::Until(moment) => moment.is_until(times),
        }
    }
}
