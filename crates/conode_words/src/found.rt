//! What the matches of a subcommand have.

ghost use Rattle.std.specs.Prelude.{◌≡◌, IfOk, map, option_map};
ghost use Rattle.std.specs.Str.{bytes_eq};
ghost use Rattle.clap.specs.Words.{first_of, found_of, rows_of};
ghost use Rattle.conode_words.specs.Tasks.{is_used, number_for, words_for};

use clap::ArgMatches;
use std::alloc::{AllocError, Global};

/// Whether a word is this one; a function of its own, so that the comparison is proved once.
pub(crate) fn is(word: &str, known: &str) -> bool
    ensures { result ≡ bytes_eq word.now known.now }
{
    word == known
}

/// A word, or the value of an option, if it is there.
#[tactic(auto, using(crate::proofs::TaskLemmas::first_in_rows))]
pub(crate) fn word_for<'a>(found: &ArgMatches<'a>, name: &str) -> Option<&'a str>
    ensures { option_map (λ word. word.now) result
        ≡ first_of name.now (rows_of (found_of found.now)) }
{
    found.get_str(name)
}

/// All words of an option. `Err`: out of memory.
#[tactic(auto, using(crate::proofs::TaskLemmas::all_in_rows), unfolding(crate::specs::Tasks::words_for))]
pub(crate) fn words_for<'a>(
    alloc: Global,
    found: &ArgMatches<'a>,
    name: &str,
) -> Result<Vec<&'a str>, AllocError>
    ensures { IfOk result (λ words. map (λ word. word.now) words.items
        ≡ words_for name.now (rows_of (found_of found.now))) }
{
    let mut words = Vec::new(alloc);
    let Some(given) = found.get_strs(name) else {
        return Ok(words);
    };
    let Ok(()) = words.extend_from_slice(given) else {
        return Err(AllocError);
    };
    Ok(words)
}

/// Whether a flag is used.
#[tactic(auto, unfolding(crate::specs::Tasks::is_used))]
pub(crate) fn is_used(found: &ArgMatches<'_>, name: &str) -> bool
    ensures { result ≡ is_used name.now (rows_of (found_of found.now)) }
{
    match word_for(found, name) {
        Some(word) => is(word, "true"),
        None => false,
    }
}

/// The number of an option, if it is there and fits 8 bits.
#[tactic(auto, using(crate::proofs::TaskLemmas::number_read), unfolding(crate::specs::Tasks::number_for))]
pub(crate) fn number_u8(found: &ArgMatches<'_>, name: &str) -> Option<u8>
    ensures { result ≡ number_for 8 name.now (rows_of (found_of found.now)) }
{
    let Some(word) = word_for(found, name) else {
        return None;
    };
    word.parse().ok()
}

/// The number of an option, if it is there and fits 16 bits.
#[tactic(auto, using(crate::proofs::TaskLemmas::number_read), unfolding(crate::specs::Tasks::number_for))]
pub(crate) fn number_u16(found: &ArgMatches<'_>, name: &str) -> Option<u16>
    ensures { result ≡ number_for 16 name.now (rows_of (found_of found.now)) }
{
    let Some(word) = word_for(found, name) else {
        return None;
    };
    word.parse().ok()
}

/// The number of an option, if it is there and fits 32 bits.
#[tactic(auto, using(crate::proofs::TaskLemmas::number_read), unfolding(crate::specs::Tasks::number_for))]
pub(crate) fn number_u32(found: &ArgMatches<'_>, name: &str) -> Option<u32>
    ensures { result ≡ number_for 32 name.now (rows_of (found_of found.now)) }
{
    let Some(word) = word_for(found, name) else {
        return None;
    };
    word.parse().ok()
}
