//! The command line.

ghost use Rattle.std.specs.Prelude.{◌≡◌, map, IfOk, IfSome, IsSomeAnd, option_map, is_some};
ghost use Rattle.clap.specs.Words.{
  FailsBy,
  found_of,
  kind_of,
  rows_of,
  subcommand_of,
  subcommand_rows_of,
};
ghost use Rattle.clap.specs.declared.error.kind.ErrorKind.TheVariants.{InvalidValue};
ghost use Rattle.conode_words.specs.Commands.{IsCommand, conode_command};
ghost use Rattle.conode_words.specs.Fields.{AsksFor};
ghost use Rattle.conode_words.specs.Tasks.{
  asked_by,
  asked_of,
  asks_document_for_lines,
  has_other_word,
  is_other,
  is_other_compare,
  is_other_explain,
  is_other_lint,
  is_other_stats,
  task_fault,
  word_fault,
};

use crate::asked::asked_in;
use crate::choices::{
    colours_for, format_for, lines_as_for, log_form_for, mode_for, report_as_for, shown_for,
    stamps_for, zeros_for,
};
use crate::commands::{COMMANDS, conode_command, subcommand_alone};
use crate::found::{is, is_used};
use crate::help;
use crate::options::Subcommand;
use crate::tasks::{ReportAs, Task};
use clap::error::ErrorKind;
use clap::{ArgMatches, Command, Error};
use std::alloc::{AllocError, Global};

// the message about a word of an option, if it is none of the choices
fn said_if(is_other: bool, text: &'static str) -> Option<&'static str>
    ensures { is_some result ≡ is_other }
{
    if is_other { Some(text) } else { None }
}

// the message about a word of `lint` that is none of the choices
#[tactic(auto, unfolding(crate::specs::Tasks::is_other_lint))]
fn other_lint(found: &ArgMatches<'_>) -> Option<&'static str>
    ensures { is_some result ≡ is_other_lint (rows_of (found_of found.now)) }
{
    let format = said_if(format_for(found).is_none(), help::FORMATS);
    format.or(said_if(colours_for(found).is_none(), help::COLOURS))
}

// the same for the words of `stats`, which `explain` takes too
#[tactic(auto, unfolding(crate::specs::Tasks::is_other_stats))]
fn other_stats(found: &ArgMatches<'_>) -> Option<&'static str>
    ensures { is_some result ≡ is_other_stats (rows_of (found_of found.now)) }
{
    let lines_as = said_if(lines_as_for(found).is_none(), help::LINES_AS);
    lines_as.or(said_if(log_form_for(found).is_none(), help::LOG_FORMS))
}

// the same for the words of `explain`
#[tactic(auto, unfolding(crate::specs::Tasks::is_other_explain))]
fn other_explain(found: &ArgMatches<'_>) -> Option<&'static str>
    ensures { is_some result ≡ is_other_explain (rows_of (found_of found.now)) }
{
    let stamps = said_if(stamps_for(found).is_none(), help::STAMPS);
    let colours = said_if(colours_for(found).is_none(), help::COLOURS);
    stamps.or(colours).or(other_stats(found))
}

// whether `compare` is asked for lines that only its text has, in a document
#[tactic(auto, unfolding(crate::specs::Tasks::asks_document_for_lines))]
fn asks_document_for_lines(found: &ArgMatches<'_>) -> bool
    ensures { result ≡ asks_document_for_lines (rows_of (found_of found.now)) }
{
    let is_text = matches!(report_as_for(found), Some(ReportAs::Text));
    !is_text && (is_used(found, "choices") || is_used(found, "learned"))
}

// the same for the words of `compare`
#[tactic(auto, unfolding(crate::specs::Tasks::is_other_compare))]
fn other_compare(found: &ArgMatches<'_>) -> Option<&'static str>
    ensures { is_some result ≡ is_other_compare (rows_of (found_of found.now)) }
{
    let report_as = said_if(report_as_for(found).is_none(), help::REPORTS_AS);
    let form = said_if(log_form_for(found).is_none(), help::LOG_FORMS);
    let lines = said_if(asks_document_for_lines(found), help::TEXT_LINES);
    report_as.or(form).or(lines)
}

// the same for the words of this subcommand
#[tactic(auto, unfolding(crate::specs::Tasks::is_other))]
fn other_of(name: &str, found: &ArgMatches<'_>) -> Option<&'static str>
    ensures { is_some result ≡ is_other name.now (rows_of (found_of found.now)) }
{
    if is(name, "loop") {
        return said_if(mode_for(found).is_none(), help::MODES);
    }
    if is(name, "lint") {
        return other_lint(found);
    }
    if is(name, "show") {
        return said_if(shown_for(found).is_none(), help::SHOWN_FORMS);
    }
    if is(name, "adapt") {
        return said_if(zeros_for(found).is_none(), help::LEADING_ZEROS);
    }
    if is(name, "explain") {
        return other_explain(found);
    }
    if is(name, "stats") {
        return other_stats(found);
    }
    if is(name, "convert") {
        return said_if(log_form_for(found).is_none(), help::LOG_FORMS);
    }
    if is(name, "compare") {
        return other_compare(found);
    }
    None
}

// the same for the words of the subcommand that is used
#[tactic(auto, unfolding(crate::specs::Tasks::has_other_word))]
fn other_word(matches: &ArgMatches<'_>) -> Option<&'static str>
    ensures { is_some result ≡ has_other_word (subcommand_rows_of matches.now) }
{
    let Some((name, found)) = matches.subcommand() else {
        return None;
    };
    other_of(name, found)
}

#[tactic(auto, unfolding(crate::specs::Tasks::asked_of))]
fn asked_of<'a>(alloc: Global, matches: &ArgMatches<'a>) -> Result<Option<Task<'a>>, AllocError>
    ensures { IfOk result (λ task.
        option_map asked_by task ≡ asked_of (subcommand_rows_of matches.now)) }
{
    let Some((name, found)) = matches.subcommand() else {
        return Ok(None);
    };
    asked_in(alloc, name, found)
}

// the error about a word of the subcommand that is used, with its usage
fn word_error(
    alloc: Global,
    rows: &[Subcommand],
    matches: &ArgMatches<'_>,
    text: &str,
) -> Result<Error, AllocError>
    ensures { IfOk result (λ error. kind_of error ≡ InvalidValue) }
{
    match subcommand_alone(alloc, rows, matches.subcommand_name().unwrap_or("")) {
        Ok(mut command) => {
            let error = command.error(ErrorKind::InvalidValue, text);
            drop(command);
            error
        }
        Err(error) => Err(error),
    }
}

// what words that the command accepts ask for, unless one of them is none of the choices
#[tactic(auto, unfolding(crate::specs::Tasks::word_fault))]
fn task_of<'a>(
    alloc: Global,
    rows: &[Subcommand],
    matches: &ArgMatches<'a>,
) -> Result<Option<Task<'a>>, Error>
    ensures ok { IfOk result (λ task.
        option_map asked_by task ≡ asked_of (subcommand_rows_of matches.now)) }
    ensures fault { FailsBy (word_fault (subcommand_rows_of matches.now)) result }
{
    if let Some(text) = other_word(matches) {
        let Ok(error) = word_error(alloc, rows, matches, text) else {
            return Err(Error::from(AllocError));
        };
        return Err(error);
    }
    let Ok(task) = asked_of(alloc, matches) else {
        return Err(Error::from(AllocError));
    };
    Ok(task)
}

// what the words ask for, by the program's command
fn task_by<'a>(
    alloc: Global,
    rows: &[Subcommand],
    command: &mut Command<'a>,
    words: &'a [&'a str],
) -> Result<Option<Task<'a>>, Error>
    requires { IsCommand command.old conode_command }
    ensures ok { IfOk result (λ task. option_map asked_by task
        ≡ asked_of (subcommand_of conode_command (map (λ word. word.now) words.entry.now))) }
    ensures fault { FailsBy (task_fault (map (λ word. word.now) words.entry.now)) result }
{
    match command.try_get_matches_from_mut(words) {
        Ok(matches) => task_of(alloc, rows, &matches),
        Err(error) => Err(error),
    }
}

/// What the words ask for; the first of them is the program's name. `None` without a subcommand.
/// The error has the text for the user, which is about a wrong word or the help that was asked for,
/// and the exit status.
pub fn task<'a>(alloc: Global, words: &'a [&'a str]) -> Result<Option<Task<'a>>, Error>
    ensures ok { IfOk result (λ task. option_map asked_by task
        ≡ asked_of (subcommand_of conode_command (map (λ word. word.now) words.entry.now))) }
    // Which word and which option gives which field of the task.
    ensures fields { IfOk result (λ task. IfSome task (λ t. IsSomeAnd
        (subcommand_of conode_command (map (λ word. word.now) words.entry.now))
        (λ m. AsksFor m.0 m.1 (asked_by t)))) }
    ensures fault { FailsBy (task_fault (map (λ word. word.now) words.entry.now)) result }
{
    let rows = &COMMANDS;
    let Ok(mut command) = conode_command(alloc, rows) else {
        return Err(Error::from(AllocError));
    };
    let task = task_by(alloc, rows, &mut command, words);
    drop(command);
    task
}
