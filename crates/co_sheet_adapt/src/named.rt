//! The names and values of the sub-indices of objects in compact form, `[2300Name]` and
//! `[2300Value]` (CiA 306, compact storage), and the sub-indices that have a section of their own.

ghost use Rattle.std.specs.Prelude.{◌≡◌, ℕ, Some, None, is_some, map, option_map, IfOk, OnOk, codes};
ghost use Rattle.std.specs.Option.{option_copied, option_or};
ghost use Rattle.indexmap.specs.IndexMap.{get};
ghost use Rattle.co_value.specs.Keys.{same_key};
ghost use Rattle.co_sheet_adapt.specs.Named.{
  index_named,
  own_in_group,
  own_in_groups,
  sub_named,
  text_in_group,
  text_in_groups,
  text_in_line,
};
ghost use Rattle.co_sheet_changes.specs.Views.{line_view, group_view};
ghost use Rattle.co_sheet_adapt.specs.private.Named.{texts_at};

use co_sheet_changes::{Group, Line};
use co_sheet_text::{SectionKind, number_in, same_name};
use co_value::Key;
use indexmap::IndexMap;
use std::alloc::{AllocError, Global};

// the index of an object that such a section's name has before a word
fn index_named(name: &[u8], word: &[u8]) -> Option<u16>
    ensures { result ≡ index_named word.now name.now }
{
    let (front, end) = name.split_at(name.len().saturating_sub(word.len()));
    if !same_name(end, word) {
        return None;
    }
    match SectionKind::of_name(front) {
        SectionKind::Object(index) => Some(index),
        _ => None,
    }
}

// the sub-index that a key of such a section is, in decimal digits
fn sub_named(name: &[u8]) -> Option<u8>
    ensures { result ≡ sub_named name.now }
{
    match number_in(10, name) {
        Some(number @ 0..=255) => Some(number as u8),
        _ => None,
    }
}

/// The names or values that sections give sub-indices, or the names of their sections, by key; if
/// there are two, the first counts.
pub(crate) struct Texts<'a> {
    texts: IndexMap<Key, &'a [u8]>,
}

// its own, so that a function that lets one go has one call
impl<'a> Drop for Texts<'a> {
    fn drop(self) {
        let Texts { texts } = self;
        drop(texts);
    }
}

impl<'a> Texts<'a> {
    // adds what a line of an object's section gives, unless there is something already
    fn add_line(&mut self, index: u16, line: &Line<'a>) -> Result<(), AllocError>
        ensures { OnOk result ((k : _) → texts_at self.new k
            ≡ option_or (texts_at self.old k) (text_in_line index k (line_view line.now))) }
    {
        let Some((name, value)) = line.property() else {
            return Ok(());
        };
        let Some(sub) = sub_named(name) else {
            return Ok(());
        };
        let key = Key { index, sub };
        if self.texts.get(&key).is_some() {
            return Ok(());
        }
        match self.texts.insert(key, value) {
            Ok(_) => Ok(()),
            Err(_) => Err(AllocError),
        }
    }

    // adds what a section gives, if it is one of the word
    #[tactic(auto, using(crate::proofs::NamedLemmas::or_assoc))]
    fn add_named(&mut self, group: &Group<'_, 'a>, word: &[u8]) -> Result<(), AllocError>
        ensures { OnOk result ((k : _) → texts_at self.new k
            ≡ option_or (texts_at self.old k) (text_in_group word.now k (group_view group.now))) }
    {
        let Some(index) = index_named(group.name, word) else {
            return Ok(());
        };
        for line in group.body {
            attempt!(self.add_line(index, line));
        }
        Ok(())
    }

    /// What the sections of a word give.
    #[tactic(auto, using(crate::proofs::NamedLemmas::or_assoc))]
    pub(crate) fn of(
        alloc: Global,
        groups: &[Group<'_, 'a>],
        word: &[u8],
    ) -> Result<Texts<'a>, AllocError>
        ensures { IfOk result (λ texts. (k : _) →
            texts_at texts k ≡ text_in_groups word.now k (map group_view groups.now)) }
    {
        let mut texts = Texts {
            texts: IndexMap::new(alloc),
        };
        for group in groups {
            attempt!(texts.add_named(group, word));
        }
        Ok(texts)
    }

    // adds the name of a section of a sub-index, unless there is one already
    fn add_section(&mut self, group: &Group<'_, 'a>) -> Result<(), AllocError>
        ensures { OnOk result ((k : _) → texts_at self.new k
            ≡ option_or (texts_at self.old k) (own_in_group k (group_view group.now))) }
    {
        let SectionKind::SubIndex(key) = group.kind else {
            return Ok(());
        };
        if self.texts.get(&key).is_some() {
            return Ok(());
        }
        match self.texts.insert(key, group.name) {
            Ok(_) => Ok(()),
            Err(_) => Err(AllocError),
        }
    }

    /// The names of the sections of sub-indices.
    #[tactic(auto, using(crate::proofs::NamedLemmas::or_assoc))]
    pub(crate) fn sections(alloc: Global, groups: &[Group<'_, 'a>]) -> Result<Texts<'a>, AllocError>
        ensures { IfOk result (λ texts. (k : _) →
            texts_at texts k ≡ own_in_groups k (map group_view groups.now)) }
    {
        let mut texts = Texts {
            texts: IndexMap::new(alloc),
        };
        for group in groups {
            attempt!(texts.add_section(group));
        }
        Ok(texts)
    }

    /// Whether there is something of a sub-index.
    pub(crate) fn has(&self, key: Key) -> bool
        ensures { result ≡ is_some (texts_at self.now key) }
    {
        self.texts.get(&key).is_some()
    }

    /// The name or value of a sub-index.
    pub(crate) fn at(&self, key: Key) -> Option<&'a [u8]>
        ensures { option_copied result ≡ texts_at self.now key }
    {
        self.texts.get(&key).copied()
    }
}
