//! The words of a filter.

ghost use Rattle.std.specs.Prelude.{◌≡◌, ◌∷◌, [], ◌<◌, length, Ok, Some, OnOk, IfOk, IfErr, IfSome, IfNone};
ghost use Rattle.std.specs.Option.{option_copied};
ghost use Rattle.conode_explain_filter.specs.Conditions.{asked, words_in};
ghost use Rattle.conode_explain_filter.specs.Filters.{IsFault, IsFaultOf, IsFilter};

use crate::condition::Condition;
use crate::filter::Filter;
use crate::option::FilterOption;
use std::alloc::Global;

/// The text of each option of a filter that is used.
#[derive(Clone, Copy)]
pub struct FilterWords<'a> {
    /// Node-IDs, as `5,8`.
    pub of: Option<&'a str>,
    /// Identifiers and ranges of them, as `180-1FF,705`.
    pub id: Option<&'a str>,
    /// Kinds, as `sdo,emcy`.
    pub kind: Option<&'a str>,
    /// A time, as `12.5` or `@1700000000.25`.
    pub from: Option<&'a str>,
    /// A time.
    pub to: Option<&'a str>,
}

/// What is wrong with the words of a filter.
#[derive(Clone, Copy)]
pub enum FilterFault<'a> {
    /// A word isn't one that its option has.
    Word(FilterOption, &'a str),
    /// Memory ran out.
    Memory,
}

// the first word of an option's text, and the text after its comma; `None` where it is one word
#[tactic(auto, unfolding(crate::specs::Conditions::words_in))]
fn first_word(option: FilterOption, text: &str) -> Option<(&str, &str)>
    ensures one { IfNone result (words_in option text.now ≡ text.now ∷ []) }
    ensures more { IfSome result
        (λ cut. words_in option text.now ≡ cut.0.now ∷ words_in option cut.1.now) }
    ensures shorter { IfSome result (λ cut. length cut.1.now < length text.now) }
{
    if option.is_time() {
        return None;
    }
    text.split_once(',')
}

// appends what the text of an option asks for; there is nothing before it
fn add_conditions<'a>(
    conditions: &mut Vec<Condition>,
    option: FilterOption,
    text: &'a str,
) -> Result<(), FilterFault<'a>>
    requires { conditions.old.items ≡ [] }
    ensures ok { OnOk result (asked option (Some text.now) ≡ Ok conditions.new.items) }
    ensures err { IfErr result (IsFaultOf option (Some text.now)) }
{
    let mut rest = text;
    while let Some((word, more)) = first_word(option, rest) {
        let Some(condition) = Condition::read(option, word) else {
            return Err(FilterFault::Word(option, word));
        };
        match conditions.push(condition) {
            Ok(()) => rest = more,
            Err(_) => return Err(FilterFault::Memory),
        }
    }
    let Some(condition) = Condition::read(option, rest) else {
        return Err(FilterFault::Word(option, rest));
    };
    match conditions.push(condition) {
        Ok(()) => Ok(()),
        Err(_) => Err(FilterFault::Memory),
    }
}

// likewise of an option that may not be used
fn add_asked<'a>(
    conditions: &mut Vec<Condition>,
    option: FilterOption,
    text: Option<&'a str>,
) -> Result<(), FilterFault<'a>>
    requires { conditions.old.items ≡ [] }
    ensures ok { OnOk result (asked option (option_copied text.entry) ≡ Ok conditions.new.items) }
    ensures err { IfErr result (IsFaultOf option (option_copied text.entry)) }
{
    match text {
        Some(text) => add_conditions(conditions, option, text),
        None => Ok(()),
    }
}

impl Filter {
    /// The filter that words ask for. `Word`: the first word that its option doesn't have.
    /// `Memory`: memory ran out.
    pub fn read<'a>(alloc: Global, words: &FilterWords<'a>) -> Result<Filter, FilterFault<'a>>
        ensures ok { IfOk result (λ filter. IsFilter words.now filter) }
        ensures err { IfErr result (λ fault. IsFault words.now fault) }
    {
        let mut filter = Filter {
            of: Vec::new(alloc),
            id: Vec::new(alloc),
            kind: Vec::new(alloc),
            from: Vec::new(alloc),
            to: Vec::new(alloc),
        };
        attempt!(filter.add(words));
        Ok(filter)
    }

    // adds what words ask for; there is nothing before it
    fn add<'a>(&mut self, words: &FilterWords<'a>) -> Result<(), FilterFault<'a>>
        requires of { self.old.of.items ≡ [] }
        requires id { self.old.id.items ≡ [] }
        requires kind { self.old.kind.items ≡ [] }
        requires from { self.old.from.items ≡ [] }
        requires to { self.old.to.items ≡ [] }
        ensures ok { OnOk result (IsFilter words.now self.new) }
        ensures err { IfErr result (λ fault. IsFault words.now fault) }
    {
        attempt!(add_asked(&mut self.of, FilterOption::Of, words.of));
        attempt!(add_asked(&mut self.id, FilterOption::Id, words.id));
        attempt!(add_asked(&mut self.kind, FilterOption::Kind, words.kind));
        attempt!(add_asked(&mut self.from, FilterOption::From, words.from));
        add_asked(&mut self.to, FilterOption::To, words.to)
    }
}
