//! The words that name data sheets.

ghost use Rattle.std.specs.Prelude.{◌≡◌, ◌++◌, ◌∷◌, [], IfOk, IfErr, OnOk, Ok, Err, map};
ghost use Rattle.std.specs.Option.{option_copied, option_map};
ghost use Rattle.conode_sheets.specs.SheetWords.{
  IsWrong,
  cut_at,
  first_cut,
  has_no_blank,
  if_own,
  is_in_path,
  is_interface,
  node_like,
  word_view,
  node_and_path,
  sheet_word,
  with_interface,
  with_node,
  with_path,
};

use co_text::{decimal_in, is_blank};
use std::alloc::{AllocError, Global};

/// The part of a word that is wrong.
#[derive(Clone, Copy)]
pub enum SheetPart {
    /// What comes before the colon.
    Interface,
    /// What comes before the equals sign.
    Node,
    /// The path.
    Path,
}

impl SheetPart {
    /// What the word lacks.
    pub(crate) fn wanted(self) -> &'static str {
        match self {
            SheetPart::Interface => "interface of 1 to 15 bytes, without a blank, before the colon",
            SheetPart::Node => "node-ID from 1 to 127 before the equals sign",
            SheetPart::Path => "path of a data sheet",
        }
    }
}

/// What is wrong with the words that name data sheets.
#[derive(Clone, Copy)]
pub enum SheetWordFault<'a> {
    /// A part of a word.
    Word(SheetPart, &'a str),
    /// Memory ran out.
    Memory,
}

impl<'a> From<AllocError> for SheetWordFault<'a> {
    ghost use Rattle.std.specs.Prelude.{◌≡◌};
    ghost use Rattle.conode_sheets.specs.declared.sheet_word.SheetWordFault.TheVariants.{Memory};

    ghost from_gives = { λ _ fault. fault ≡ Memory };

    fn from(_: AllocError) -> SheetWordFault<'a> {
        SheetWordFault::Memory
    }
}

/// A data sheet as a word names it: `[INTERFACE:][NODE=]FILE`.
#[derive(Clone, Copy)]
pub struct SheetWord<'a> {
    /// The interface that it is for; `None`: each.
    pub interface: Option<&'a [u8]>,
    /// The node that it is for, 1 to 127; `None`: the sheet's own, if it has one, else each.
    pub node: Option<u8>,
    /// Its path.
    pub path: &'a str,
}

fn at_colon(word: &str) -> Option<(&str, &str)>
    ensures { option_map (λ cut. (cut.0.now, cut.1.now)) result ≡ first_cut 58 word.now }
{
    word.split_once(':')
}

fn at_equals(word: &str) -> Option<(&str, &str)>
    ensures { option_map (λ cut. (cut.0.now, cut.1.now)) result ≡ first_cut 61 word.now }
{
    word.split_once('=')
}

fn is_in_path(front: &[u8]) -> bool
    ensures { result ≡ is_in_path front.now }
{
    front.iter().any(|byte| *byte == b'/' || *byte == b'=')
}

fn if_own<'a>(front: &'a str, rest: &'a str) -> Option<(&'a str, &'a str)>
    ensures { option_map (λ cut. (cut.0.now, cut.1.now)) result
        ≡ if_own (front.entry.now, rest.entry.now) }
{
    if is_in_path(front.as_bytes()) {
        return None;
    }
    Some((front, rest))
}

// what comes before the colon that ends an interface, and what comes after it
fn cut_at_colon(word: &str) -> Option<(&str, &str)>
    ensures { option_map (λ cut. (cut.0.now, cut.1.now)) result ≡ cut_at 58 word.now }
{
    match at_colon(word) {
        Some((front, rest)) => if_own(front, rest),
        None => None,
    }
}

// the same of the equals sign that ends a node-ID
fn cut_at_equals(word: &str) -> Option<(&str, &str)>
    ensures { option_map (λ cut. (cut.0.now, cut.1.now)) result ≡ cut_at 61 word.now }
{
    match at_equals(word) {
        Some((front, rest)) => if_own(front, rest),
        None => None,
    }
}

fn has_no_blank(name: &[u8]) -> bool
    ensures { result ≡ has_no_blank name.now }
{
    name.iter().all(|byte| !is_blank(*byte))
}

fn is_interface(name: &[u8]) -> bool
    ensures { result ≡ is_interface name.now }
{
    (1 <= name.len() && name.len() <= 15) && has_no_blank(name)
}

fn with_path<'a>(
    interface: Option<&'a [u8]>,
    node: Option<u8>,
    path: &'a str,
) -> Result<SheetWord<'a>, SheetPart>
    ensures ok { IfOk result (λ word.
        with_path (option_copied interface.entry) node path.entry.now ≡ Ok (word_view word)) }
    ensures err { IfErr result (λ part.
        with_path (option_copied interface.entry) node path.entry.now ≡ Err part) }
{
    if path.is_empty() {
        return Err(SheetPart::Path);
    }
    Ok(SheetWord {
        interface,
        node,
        path,
    })
}

fn with_node<'a>(
    interface: Option<&'a [u8]>,
    front: &str,
    path: &'a str,
) -> Result<SheetWord<'a>, SheetPart>
    ensures ok { IfOk result (λ word. with_node (option_copied interface.entry)
        (front.now, path.entry.now) ≡ Ok (word_view word)) }
    ensures err { IfErr result (λ part.
        with_node (option_copied interface.entry) (front.now, path.entry.now) ≡ Err part) }
{
    match decimal_in(front.as_bytes(), 1, 127) {
        Some(node) => with_path(interface, Some(node as u8), path),
        None => Err(SheetPart::Node),
    }
}

#[tactic(auto, unfolding(crate::specs::SheetWords::node_and_path))]
fn node_and_path<'a>(interface: Option<&'a [u8]>, word: &'a str) -> Result<SheetWord<'a>, SheetPart>
    ensures ok { IfOk result (λ found.
        node_and_path (option_copied interface.entry) word.entry.now ≡ Ok (word_view found)) }
    ensures err { IfErr result (λ part.
        node_and_path (option_copied interface.entry) word.entry.now ≡ Err part) }
{
    match cut_at_equals(word) {
        Some((front, path)) => with_node(interface, front, path),
        None => with_path(interface, None, word),
    }
}

fn with_interface<'a>(front: &'a str, rest: &'a str) -> Result<SheetWord<'a>, SheetPart>
    ensures ok { IfOk result (λ found.
        with_interface (front.entry.now, rest.entry.now) ≡ Ok (word_view found)) }
    ensures err { IfErr result (λ part.
        with_interface (front.entry.now, rest.entry.now) ≡ Err part) }
{
    let name = front.as_bytes();
    if is_interface(name) {
        node_and_path(Some(name), rest)
    } else {
        Err(SheetPart::Interface)
    }
}

impl<'a> SheetWord<'a> {
    /// The node-ID that the interface looks like, where the word has none, as `5:FILE` for `5=FILE`.
    pub(crate) fn node_like(&self) -> Option<u32>
        ensures { result ≡ node_like self.now.node (option_copied self.now.interface) }
    {
        match (self.node, self.interface) {
            (None, Some(name)) => decimal_in(name, 1, 127),
            _ => None,
        }
    }

    /// What a word names: what comes before the first colon is an interface, and what comes before
    /// the first equals sign after it a node-ID, unless it has a slash or an equals sign and so is
    /// part of a path.
    #[tactic(auto, unfolding(crate::specs::SheetWords::sheet_word))]
    pub(crate) fn read(word: &'a str) -> Result<SheetWord<'a>, SheetPart>
        ensures ok { IfOk result (λ found. sheet_word word.entry.now ≡ Ok (word_view found)) }
        ensures err { IfErr result (λ part. sheet_word word.entry.now ≡ Err part) }
    {
        match cut_at_colon(word) {
            Some((front, rest)) => with_interface(front, rest),
            None => node_and_path(None, word),
        }
    }
}

fn add<'a>(found: &mut Vec<SheetWord<'a>>, word: SheetWord<'a>) -> Result<(), AllocError>
    ensures { OnOk result (found.new.items ≡ found.old.items ++ word.entry ∷ []) }
{
    found.push(word)?;
    Ok(())
}

/// What words name; on an `Err` a word that names no data sheet, or memory ran out.
pub fn sheet_words<'a>(
    alloc: Global,
    words: &[&'a str],
) -> Result<Vec<SheetWord<'a>>, SheetWordFault<'a>>
    ensures ok { IfOk result (λ found. map (λ word. sheet_word word.now) words.now
        ≡ map (λ word. Ok (word_view word)) found.items) }
    ensures err { IfErr result IsWrong }
{
    let mut found = Vec::new(alloc);
    for word in words {
        match SheetWord::read(*word) {
            Ok(sheet) => add(&mut found, sheet)?,
            Err(part) => return Err(SheetWordFault::Word(part, *word)),
        }
    }
    Ok(found)
}
