//! The kinds of words and options, and commands built from tables of them.

ghost use Rattle.std.specs.Prelude.{◌≡◌, [], false, IfOk};
ghost use Rattle.clap.specs.Words.{App, new_app, rule_of};
ghost use Rattle.conode_words.specs.Commands.{IsCommand, flag, numbered, valued, wanted};
ghost use Rattle.conode_words.specs.Tables.{app_by, rule_by, with_commands, with_words};

use clap::builder::ValueParser;
use clap::{Arg, ArgAction, Command};
use std::alloc::{AllocError, Global};

/// The kind of a word or an option.
#[derive(Clone, Copy)]
pub(crate) enum Kind {
    /// A word that has to be there.
    Wanted,
    /// Words that have to be there, one at least.
    ManyWanted,
    /// An option without a value.
    Flag,
    /// An option with a value, which help calls so.
    Valued(&'static str),
    /// The same, which may be used several times.
    Repeated(&'static str),
    /// An option with a value, which help calls so, and its default.
    Worded(&'static str, &'static str),
    /// The same with a letter too, as `-t`.
    Lettered(char, &'static str, &'static str),
    /// An option with a number between these two.
    Numbered(u64, u64),
    /// An option with a number from 0 to this one, and its default.
    NumberedOr(u64, &'static str),
}

/// A word or an option of a command: its name, its kind, and its text in help.
#[derive(Clone, Copy)]
pub(crate) struct Word(
    pub(crate) &'static str,
    pub(crate) Kind,
    pub(crate) &'static str,
);

/// The texts of a subcommand: its name, the words that start it, its line in help, and the text at the
/// end of its help.
#[derive(Clone, Copy)]
pub(crate) struct Texts {
    pub(crate) name: &'static str,
    pub(crate) usage: &'static str,
    pub(crate) about: &'static str,
    pub(crate) after_help: &'static str,
}

/// A subcommand: its texts, and its words and options. The texts are a reference, so that all of them
/// are one step of the code that uses a table of subcommands.
#[derive(Clone, Copy)]
pub(crate) struct Subcommand {
    pub(crate) texts: &'static Texts,
    pub(crate) words: &'static [Word],
}

/// A command without words, with its texts in help.
pub(crate) fn new_command<'a>(
    alloc: Global,
    name: &'a str,
    about: &'a str,
    after_help: &'a str,
) -> Command<'a>
    ensures { IsCommand result (new_app name.entry.now) }
{
    Command::new(alloc, name)
        .about(about)
        .after_help(after_help)
}

fn wanted<'a>(alloc: Global, name: &'a str, help: &'a str) -> Arg<'a>
    ensures rule { rule_of result ≡ wanted name.entry.now }
    ensures local { result.global ≡ false }
{
    Arg::new(alloc, name).required(true).help(help)
}

fn flag<'a>(alloc: Global, name: &'a str, help: &'a str) -> Arg<'a>
    ensures rule { rule_of result ≡ flag name.entry.now }
    ensures local { result.global ≡ false }
{
    Arg::new(alloc, name)
        .long(name)
        .action(ArgAction::SetTrue)
        .help(help)
}

fn valued<'a>(alloc: Global, name: &'a str, value: &'a str, help: &'a str) -> Arg<'a>
    ensures rule { rule_of result ≡ valued name.entry.now }
    ensures local { result.global ≡ false }
{
    Arg::new(alloc, name)
        .long(name)
        .value_name(value)
        .help(help)
}

fn numbered<'a>(alloc: Global, name: &'a str, low: u64, high: u64, help: &'a str) -> Arg<'a>
    ensures rule { rule_of result ≡ numbered name.entry.now low high [] }
    ensures local { result.global ≡ false }
{
    valued(alloc, name, "N", help).value_parser(ValueParser::unsigned(low, high))
}

// the word or option of a row in a table
#[tactic(auto, unfolding(crate::specs::Tables::rule_of_kind))]
fn arg_of<'a>(alloc: Global, word: &Word) -> Arg<'a>
    ensures rule { rule_of result ≡ rule_by word.now }
    ensures local { result.global ≡ false }
{
    let Word(name, kind, help) = *word;
    match kind {
        Kind::Wanted => wanted(alloc, name, help),
        Kind::ManyWanted => wanted(alloc, name, help).num_args(1..),
        Kind::Flag => flag(alloc, name, help),
        Kind::Valued(value) => valued(alloc, name, value, help),
        Kind::Repeated(value) => valued(alloc, name, value, help).action(ArgAction::Append),
        Kind::Worded(value, default) => valued(alloc, name, value, help).default_value(default),
        Kind::Lettered(letter, value, default) => valued(alloc, name, value, help)
            .default_value(default)
            .short(letter),
        Kind::Numbered(low, high) => numbered(alloc, name, low, high, help),
        Kind::NumberedOr(high, default) => {
            numbered(alloc, name, 0, high, help).default_value(default)
        }
    }
}

// the command with the words and options of a table
fn with_words<'a>(
    alloc: Global,
    mut command: Command<'a>,
    words: &[Word],
) -> Result<Command<'a>, AllocError>
    ensures { IfOk result (λ r. (app : App) → IsCommand command.entry app
        → IsCommand r (with_words app words.now)) }
{
    for word in words {
        let Ok(next) = command.arg(arg_of(alloc, word)) else {
            return Err(AllocError);
        };
        command = next;
    }
    Ok(command)
}

/// The command of a row in a table.
pub(crate) fn command_of<'a>(alloc: Global, row: &Subcommand) -> Result<Command<'a>, AllocError>
    ensures { IfOk result (λ command. IsCommand command (app_by row.now)) }
{
    let texts = row.texts;
    let command = new_command(alloc, texts.name, texts.about, texts.after_help);
    with_words(alloc, command, row.words)
}

/// The command with the subcommands of a table. `Err`: out of memory.
pub(crate) fn with_commands<'a>(
    alloc: Global,
    mut command: Command<'a>,
    rows: &[Subcommand],
) -> Result<Command<'a>, AllocError>
    ensures { IfOk result (λ r. (app : App) → IsCommand command.entry app
        → IsCommand r (with_commands app rows.now)) }
{
    for row in rows {
        let Ok(below) = command_of(alloc, row) else {
            drop(command);
            return Err(AllocError);
        };
        let Ok(next) = command.subcommand(below) else {
            return Err(AllocError);
        };
        command = next;
    }
    Ok(command)
}
