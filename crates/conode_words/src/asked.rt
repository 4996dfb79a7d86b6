//! What the words after the name of a command ask for.

ghost use Rattle.std.specs.Prelude.{◌≡◌, IfOk, option_map};
ghost use Rattle.clap.specs.Words.{found_of, rows_of};
ghost use Rattle.conode_words.specs.Tasks.{
  asked_adapt,
  asked_by,
  asked_check,
  asked_compare,
  asked_convert,
  asked_decode,
  asked_device,
  asked_dictionary,
  asked_explain,
  asked_in,
  asked_lines,
  asked_lint,
  asked_loop,
  asked_other,
  asked_replay,
  asked_rooms,
  asked_show,
  asked_stats,
  asked_timing,
  adapt_by,
  check_by,
  compare_by,
  convert_by,
  decode_by,
  lines_by,
  loop_by,
  replay_by,
  show_by,
};

use crate::choices::{
    colours_for, format_for, lines_as_for, log_form_for, mode_for, report_as_for, shown_for,
    stamps_for, zeros_for,
};
use crate::found::{is, is_used, number_u8, number_u16, number_u32, word_for, words_for};
use crate::tasks::{
    AdaptWords, CheckWords, CompareWords, ConvertWords, DecodeWords, DeviceWords, DictionaryWords,
    ExplainWords, LintWords, LoopWords, OnlyWords, ReplayWords, RoomWords, ShowWords, StatsWords,
    Task, TimingWords,
};
use clap::ArgMatches;
use std::alloc::{AllocError, Global};

// the task with the words of a command, if they are whole
macro_rules! in_task {
    ($words:expr, $command:ident) => {
        match $words {
            Some(words) => Some(Task::$command(words)),
            None => None,
        }
    };
}

// the dictionary that the words ask for
#[tactic(auto, unfolding(crate::specs::Tasks::asked_dictionary))]
fn dictionary_words(found: &ArgMatches<'_>) -> Option<DictionaryWords>
    ensures { result ≡ asked_dictionary (rows_of (found_of found.now)) }
{
    let Some(strings) = number_u16(found, "strings") else {
        return None;
    };
    let Some(domains) = number_u16(found, "domains") else {
        return None;
    };
    Some(DictionaryWords {
        node: number_u8(found, "node"),
        strings,
        domains,
    })
}

// the device that the words ask for
#[tactic(auto, unfolding(crate::specs::Tasks::asked_device))]
fn device_words(found: &ArgMatches<'_>) -> Option<DeviceWords>
    ensures { result ≡ asked_device (rows_of (found_of found.now)) }
{
    let Some(dictionary) = dictionary_words(found) else {
        return None;
    };
    let Some(time) = number_u16(found, "time") else {
        return None;
    };
    Some(DeviceWords { dictionary, time })
}

// what the words after `check` ask for
#[tactic(auto, unfolding(crate::specs::Tasks::asked_check))]
fn asked_check<'a>(found: &ArgMatches<'a>) -> Option<CheckWords<'a>>
    ensures { option_map check_by result ≡ asked_check (rows_of (found_of found.now)) }
{
    let Some(sheet) = word_for(found, "SHEET") else {
        return None;
    };
    let Some(dictionary) = dictionary_words(found) else {
        return None;
    };
    Some(CheckWords { sheet, dictionary })
}

// what the words after `lint` ask for; lists are made last, so that no way out before drops them
#[tactic(auto, unfolding(crate::specs::Tasks::asked_lint, crate::specs::Tasks::asked_lint_of))]
fn asked_lint<'a>(alloc: Global, found: &ArgMatches<'a>) -> Result<Option<Task<'a>>, AllocError>
    ensures { IfOk result (λ task.
        option_map asked_by task ≡ asked_lint (rows_of (found_of found.now))) }
{
    let Some(dictionary) = dictionary_words(found) else {
        return Ok(None);
    };
    let Some(format) = format_for(found) else {
        return Ok(None);
    };
    let Some(colours) = colours_for(found) else {
        return Ok(None);
    };
    let strict = is_used(found, "strict");
    let all = is_used(found, "all");
    let Ok(sheets) = words_for(alloc, found, "SHEET") else {
        return Err(AllocError);
    };
    let Ok(allowed) = words_for(alloc, found, "allow") else {
        return Err(AllocError);
    };
    Ok(Some(Task::Lint(LintWords {
        sheets,
        allowed,
        dictionary,
        format,
        colours,
        strict,
        all,
    })))
}

// what the words after `decode` ask for
#[tactic(auto, unfolding(crate::specs::Tasks::asked_decode))]
fn asked_decode<'a>(found: &ArgMatches<'a>) -> Option<DecodeWords<'a>>
    ensures { option_map decode_by result ≡ asked_decode (rows_of (found_of found.now)) }
{
    let Some(trace) = word_for(found, "TRACE") else {
        return None;
    };
    Some(DecodeWords {
        trace,
        sheet: word_for(found, "sheet"),
        node: number_u8(found, "node"),
    })
}

// what the words after `replay` ask for
#[tactic(auto, unfolding(crate::specs::Tasks::asked_replay))]
fn asked_replay<'a>(found: &ArgMatches<'a>) -> Option<ReplayWords<'a>>
    ensures { option_map replay_by result ≡ asked_replay (rows_of (found_of found.now)) }
{
    let Some(sheet) = word_for(found, "SHEET") else {
        return None;
    };
    let Some(trace) = word_for(found, "TRACE") else {
        return None;
    };
    let Some(device) = device_words(found) else {
        return None;
    };
    Some(ReplayWords {
        sheet,
        trace,
        device,
    })
}

// what the words after `loop` ask for
#[tactic(auto, unfolding(crate::specs::Tasks::asked_loop))]
fn asked_loop<'a>(found: &ArgMatches<'a>) -> Option<LoopWords<'a>>
    ensures { option_map loop_by result ≡ asked_loop (rows_of (found_of found.now)) }
{
    let Some(sheet) = word_for(found, "SHEET") else {
        return None;
    };
    let Some(key) = word_for(found, "KEY") else {
        return None;
    };
    let Some(bytes) = word_for(found, "HEX") else {
        return None;
    };
    let Some(mode) = mode_for(found) else {
        return None;
    };
    let Some(device) = device_words(found) else {
        return None;
    };
    Some(LoopWords {
        sheet,
        key,
        bytes,
        mode,
        device,
    })
}

// what the words after `show` ask for
#[tactic(auto, unfolding(crate::specs::Tasks::asked_show))]
fn asked_show<'a>(found: &ArgMatches<'a>) -> Option<ShowWords<'a>>
    ensures { option_map show_by result ≡ asked_show (rows_of (found_of found.now)) }
{
    let Some(sheet) = word_for(found, "SHEET") else {
        return None;
    };
    let Some(shown_as) = shown_for(found) else {
        return None;
    };
    Some(ShowWords {
        sheet,
        node: number_u8(found, "node"),
        shown_as,
    })
}

// what the words after `adapt` ask for
#[tactic(auto, unfolding(crate::specs::Tasks::asked_adapt))]
fn asked_adapt<'a>(found: &ArgMatches<'a>) -> Option<AdaptWords<'a>>
    ensures { option_map adapt_by result ≡ asked_adapt (rows_of (found_of found.now)) }
{
    let Some(sheet) = word_for(found, "SHEET") else {
        return None;
    };
    let Some(leading_zeros) = zeros_for(found) else {
        return None;
    };
    Some(AdaptWords {
        sheet,
        leading_zeros,
        force: is_used(found, "force"),
    })
}

// which lines the words ask for
#[tactic(auto, unfolding(crate::specs::Tasks::asked_lines))]
fn only_words<'a>(found: &ArgMatches<'a>) -> OnlyWords<'a>
    ensures { lines_by result ≡ asked_lines (rows_of (found_of found.now)) }
{
    OnlyWords {
        of: word_for(found, "of"),
        id: word_for(found, "id"),
        kind: word_for(found, "kind"),
        from: word_for(found, "from"),
        to: word_for(found, "to"),
    }
}

// what the words after `explain` ask for; the list is made last, as in `lint`
#[tactic(auto, unfolding(crate::specs::Tasks::asked_explain, crate::specs::Tasks::asked_explain_of))]
fn asked_explain<'a>(alloc: Global, found: &ArgMatches<'a>) -> Result<Option<Task<'a>>, AllocError>
    ensures { IfOk result (λ task.
        option_map asked_by task ≡ asked_explain (rows_of (found_of found.now))) }
{
    let Some(trace) = word_for(found, "TRACE") else {
        return Ok(None);
    };
    let Some(stamps) = stamps_for(found) else {
        return Ok(None);
    };
    let Some(colours) = colours_for(found) else {
        return Ok(None);
    };
    let Some(lines_as) = lines_as_for(found) else {
        return Ok(None);
    };
    let Some(form) = log_form_for(found) else {
        return Ok(None);
    };
    let Ok(sheets) = words_for(alloc, found, "sheet") else {
        return Err(AllocError);
    };
    Ok(Some(Task::Explain(ExplainWords {
        trace,
        sheets,
        stamps,
        transfers: is_used(found, "transfers"),
        changes: is_used(found, "changes"),
        stop: is_used(found, "stop"),
        colours,
        lines_as,
        form,
        only: only_words(found),
        signals: word_for(found, "signal"),
    })))
}

// what the words after `convert` ask for
#[tactic(auto, unfolding(crate::specs::Tasks::asked_convert))]
fn asked_convert<'a>(found: &ArgMatches<'a>) -> Option<ConvertWords<'a>>
    ensures { option_map convert_by result ≡ asked_convert (rows_of (found_of found.now)) }
{
    let Some(log) = word_for(found, "LOG") else {
        return None;
    };
    let Some(form) = log_form_for(found) else {
        return None;
    };
    Some(ConvertWords { log, form })
}

// what the words after `stats` ask for; the list is made last, as in `lint`
#[tactic(auto, unfolding(crate::specs::Tasks::asked_stats, crate::specs::Tasks::asked_stats_of))]
fn asked_stats<'a>(alloc: Global, found: &ArgMatches<'a>) -> Result<Option<Task<'a>>, AllocError>
    ensures { IfOk result (λ task.
        option_map asked_by task ≡ asked_stats (rows_of (found_of found.now))) }
{
    let Some(trace) = word_for(found, "TRACE") else {
        return Ok(None);
    };
    let Some(lines_as) = lines_as_for(found) else {
        return Ok(None);
    };
    let Some(form) = log_form_for(found) else {
        return Ok(None);
    };
    let bit_rate = word_for(found, "bitrate");
    let Ok(sheets) = words_for(alloc, found, "sheet") else {
        return Err(AllocError);
    };
    Ok(Some(Task::Stats(StatsWords {
        trace,
        sheets,
        bit_rate,
        lines_as,
        form,
    })))
}

// how far times may be off, by the words
#[tactic(auto, unfolding(crate::specs::Tasks::asked_timing))]
fn timing_words(found: &ArgMatches<'_>) -> Option<TimingWords>
    ensures { result ≡ asked_timing (rows_of (found_of found.now)) }
{
    let Some(tolerance) = number_u32(found, "tolerance") else {
        return None;
    };
    let Some(drift) = number_u8(found, "drift") else {
        return None;
    };
    let Some(answer) = number_u32(found, "answer") else {
        return None;
    };
    let Some(boot) = number_u32(found, "boot") else {
        return None;
    };
    Some(TimingWords {
        tolerance,
        drift,
        answer,
        boot,
        time: number_u16(found, "time"),
    })
}

// the rooms that the words have
#[tactic(auto, unfolding(crate::specs::Tasks::asked_rooms))]
fn room_words(found: &ArgMatches<'_>) -> RoomWords
    ensures { result ≡ asked_rooms (rows_of (found_of found.now)) }
{
    RoomWords {
        strings: number_u16(found, "strings"),
        domains: number_u16(found, "domains"),
    }
}

// what the words after `compare` ask for
#[tactic(auto, unfolding(crate::specs::Tasks::asked_compare))]
fn asked_compare<'a>(found: &ArgMatches<'a>) -> Option<CompareWords<'a>>
    ensures { option_map compare_by result ≡ asked_compare (rows_of (found_of found.now)) }
{
    let Some(sheet) = word_for(found, "SHEET") else {
        return None;
    };
    let Some(trace) = word_for(found, "TRACE") else {
        return None;
    };
    let Some(form) = log_form_for(found) else {
        return None;
    };
    let Some(report_as) = report_as_for(found) else {
        return None;
    };
    let Some(timing) = timing_words(found) else {
        return None;
    };
    Some(CompareWords {
        sheet,
        trace,
        node: number_u8(found, "node"),
        interface: word_for(found, "interface"),
        held: word_for(found, "held"),
        rooms: room_words(found),
        choices: is_used(found, "choices"),
        learned: is_used(found, "learned"),
        form,
        report_as,
        timing,
    })
}

// what the words after the name of a subcommand other than `lint`, `explain` and `stats` ask for
#[tactic(auto, unfolding(crate::specs::Tasks::asked_other))]
fn asked_other<'a>(name: &str, found: &ArgMatches<'a>) -> Option<Task<'a>>
    ensures { option_map asked_by result ≡ asked_other name.now (rows_of (found_of found.now)) }
{
    if is(name, "check") {
        return in_task!(asked_check(found), Check);
    }
    if is(name, "decode") {
        return in_task!(asked_decode(found), Decode);
    }
    if is(name, "replay") {
        return in_task!(asked_replay(found), Replay);
    }
    if is(name, "loop") {
        return in_task!(asked_loop(found), LoopBack);
    }
    if is(name, "show") {
        return in_task!(asked_show(found), Show);
    }
    if is(name, "adapt") {
        return in_task!(asked_adapt(found), Adapt);
    }
    if is(name, "convert") {
        return in_task!(asked_convert(found), Convert);
    }
    if is(name, "compare") {
        return in_task!(asked_compare(found), Compare);
    }
    None
}

// what the words after the name of a subcommand ask for
#[tactic(auto, unfolding(crate::specs::Tasks::asked_in))]
pub(crate) fn asked_in<'a>(
    alloc: Global,
    name: &str,
    found: &ArgMatches<'a>,
) -> Result<Option<Task<'a>>, AllocError>
    ensures { IfOk result (λ task.
        option_map asked_by task ≡ asked_in name.now (rows_of (found_of found.now))) }
{
    if is(name, "lint") {
        return asked_lint(alloc, found);
    }
    if is(name, "explain") {
        return asked_explain(alloc, found);
    }
    if is(name, "stats") {
        return asked_stats(alloc, found);
    }
    Ok(asked_other(name, found))
}
