//! Which lines are printed.

ghost use Rattle.std.specs.Prelude.{◌≡◌, true};
ghost use Rattle.conode_explain_filter.specs.declared.subject.Subject.{Subject};
ghost use Rattle.conode_explain_text.specs.declared.so_far.Times.{Times};
ghost use Rattle.std.specs.List.{list_any};
ghost use Rattle.conode_explain_filter.specs.Conditions.{holds};
ghost use Rattle.conode_explain_filter.specs.Filters.{is_one, passes, passes_transfer};

use crate::condition::Condition;
use crate::subject::Subject;
use conode_explain_text::Times;

/// Which lines of an explained recording are printed: of each option that is used, a frame meets at
/// least one condition.
#[derive(Drop)]
pub struct Filter {
    /// Of which nodes.
    pub of: Vec<Condition>,
    /// With which identifiers.
    pub id: Vec<Condition>,
    /// Of which kinds.
    pub kind: Vec<Condition>,
    /// From when on.
    pub from: Vec<Condition>,
    /// Until when.
    pub to: Vec<Condition>,
}

fn any_holds(conditions: &[Condition], subject: &Subject, times: Times) -> bool
    ensures { result ≡ list_any (holds subject.now times) conditions.now }
{
    for condition in conditions {
        if condition.holds(subject, times) {
            return true;
        }
    }
    false
}

fn is_one(conditions: &[Condition], subject: &Subject, times: Times) -> bool
    ensures { result ≡ is_one subject.now times conditions.now }
{
    conditions.is_empty() || any_holds(conditions, subject, times)
}

impl Filter {
    /// Whether a frame passes.
    #[tactic(auto, unfolding(crate::specs::Filters::passes))]
    pub fn passes(&self, subject: &Subject, times: Times) -> bool
        ensures { result ≡ passes self.now subject.now times }
    {
        is_one(self.of.as_slice(), subject, times)
            && is_one(self.id.as_slice(), subject, times)
            && is_one(self.kind.as_slice(), subject, times)
            && is_one(self.from.as_slice(), subject, times)
            && is_one(self.to.as_slice(), subject, times)
    }

    /// Whether the line of a node's ended SDO transfer passes: a request or a response of its
    /// channel would.
    #[tactic(auto, unfolding(crate::specs::Filters::passes_transfer))]
    pub fn passes_transfer(&self, node: u8, times: Times) -> bool
        ensures { result ≡ passes_transfer self.now node times }
    {
        self.passes(&Subject::of_transfer(0x600, node), times)
            || self.passes(&Subject::of_transfer(0x580, node), times)
    }

    /// Whether nothing is asked for, so that each line passes.
    #[tactic(auto, unfolding(crate::specs::Filters::passes))]
    pub fn is_open(&self) -> bool
        ensures { result ≡ true → (subject : Subject) (times : Times) →
            passes self.now subject times ≡ true }
    {
        self.of.is_empty()
            && self.id.is_empty()
            && self.kind.is_empty()
            && self.from.is_empty()
            && self.to.is_empty()
    }
}
