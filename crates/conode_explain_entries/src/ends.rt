//! The line of a transfer that ended. Each function appends a text; on an `Err` memory ran out, and
//! a part of it may be there.

ghost use Rattle.std.specs.Prelude.{◌≡◌, ◌++◌, OnOk, string_bytes};
ghost use Rattle.conode_explain_entries.specs.Numbers.{grouped, plural};
ghost use Rattle.conode_explain_entries.specs.Ends.{
  aborted_text,
  count_text,
  crc_text,
  end_text,
  ending_text,
  ending_words,
  size_text,
  transfer_text,
};

use crate::numbers::{plural, push_grouped, push_seconds};
use crate::part::{Part, direction_text, push_entry};
use conode_explain_transfers::{Ended, Ending, Side};
use conode_text::push_filled;
use std::alloc::AllocError;

// ---- how it ended

#[tactic(auto, unfolding(crate::specs::Ends::aborted_text))]
fn push_aborted(text: &mut String, by: Side, code: u32, words: &str) -> Result<(), AllocError>
    ensures { OnOk result (string_bytes text.new
        ≡ string_bytes text.old ++ aborted_text by code words.now) }
{
    push_filled(
        text,
        "aborted by the % with %%",
        &[Part::Sender(by), Part::Code(code), Part::InBrackets(words)],
    )
}

#[tactic(auto, unfolding(crate::specs::Ends::size_text))]
fn push_size(text: &mut String, indicated: u32, came: u64) -> Result<(), AllocError>
    ensures { OnOk result
        (string_bytes text.new ≡ string_bytes text.old ++ size_text indicated came) }
{
    push_filled(
        text,
        "confirmed, but size % indicated, % came",
        &[Part::Grouped(indicated as u64), Part::Grouped(came)],
    )
}

#[tactic(auto, unfolding(crate::specs::Ends::crc_text))]
fn push_crcs(text: &mut String, came: u16, computed: u16) -> Result<(), AllocError>
    ensures { OnOk result
        (string_bytes text.new ≡ string_bytes text.old ++ crc_text came computed) }
{
    push_filled(
        text,
        "confirmed, but CRC %, computed %",
        &[Part::Crc(came), Part::Crc(computed)],
    )
}

// every other end; a percent sign is the time from its newest frame to the end
#[tactic(auto, unfolding(crate::specs::Ends::ending_words))]
fn ending_words(ending: Ending) -> &'static str
    ensures { result.now ≡ ending_words ending }
{
    match ending {
        Ending::Done { crc } => if crc { "done, CRC right" } else { "done" },
        Ending::Unanswered => "no answer in %",
        Ending::Repeated => "requested again after %",
        Ending::Interrupted => "interrupted",
        Ending::Unfinished => "unfinished where the recording ends, % after its last frame",
        Ending::Irregular => "confirmed, but frames are missing or repeated in the recording",
        Ending::Aborted { by: _, code: _ }
        | Ending::SizeDiffers { indicated: _ }
        | Ending::CrcDiffers {
            came: _,
            computed: _,
        }
        | Ending::NotFollowed { next: _ } => "",
    }
}

fn push_ending(
    text: &mut String,
    ended: &Ended,
    ending: Ending,
    words: &str,
) -> Result<(), AllocError>
    ensures { OnOk result (string_bytes text.new
        ≡ string_bytes text.old ++ ending_text ended.now ending words.now) }
{
    match ending {
        Ending::Aborted { by, code } => push_aborted(text, by, code.0, words),
        Ending::SizeDiffers { indicated } => push_size(text, indicated, ended.bytes),
        Ending::CrcDiffers { came, computed } => push_crcs(text, came, computed),
        Ending::Done { crc: _ }
        | Ending::Unanswered
        | Ending::Repeated
        | Ending::Interrupted
        | Ending::Unfinished
        | Ending::Irregular
        | Ending::NotFollowed { next: _ } => {
            let waited = Part::Seconds(ended.newest, ended.end);
            push_filled(text, ending_words(ending), &[waited])
        }
    }
}

// ---- the line

/// Appends the beginning of the line of a transfer that ended: `SDO download 2100:00 "Firmware"`.
/// `name` is the name of its entry, and may be empty.
#[tactic(auto, unfolding(crate::specs::Ends::transfer_text, conode_text::specs::Filled::filled))]
pub fn push_transfer(text: &mut String, ended: &Ended, name: &str) -> Result<(), AllocError>
    ensures { OnOk result
        (string_bytes text.new ≡ string_bytes text.old ++ transfer_text ended.now name.now) }
{
    attempt!(text.push_str("SDO "));
    attempt!(text.push_str(direction_text(ended.direction)));
    attempt!(text.push_str(" "));
    push_entry(text, ended.key, name)
}

// so many of a thing
fn push_amount(text: &mut String, number: u64, thing: &str) -> Result<(), AllocError>
    ensures { OnOk result (string_bytes text.new
        ≡ string_bytes text.old ++ (grouped number ++ (thing.now ++ plural number))) }
{
    attempt!(push_grouped(text, number));
    attempt!(text.push_str(thing));
    text.push_str(plural(number))
}

// how much was transferred; each line of a transfer has it, so it is written part by part
#[tactic(auto, unfolding(crate::specs::Ends::count_text, conode_text::specs::Filled::filled))]
fn push_counts(text: &mut String, ended: &Ended) -> Result<(), AllocError>
    ensures { OnOk result
        (string_bytes text.new ≡ string_bytes text.old ++ count_text ended.now) }
{
    attempt!(text.push_str(" "));
    attempt!(push_amount(text, ended.bytes, " byte"));
    attempt!(text.push_str(" in "));
    attempt!(push_amount(text, ended.frames, " frame"));
    attempt!(text.push_str(", "));
    attempt!(push_seconds(text, ended.begun, ended.end));
    text.push_str(": ")
}

/// Appends what follows it, or the value of the entry after it, without a line feed: ` 1,024 bytes
/// in 150 frames, 0.182 s: done`. `words` is what its abort code means, and may be empty.
#[tactic(auto, unfolding(crate::specs::Ends::end_text))]
pub fn push_end(text: &mut String, ended: &Ended, words: &str) -> Result<(), AllocError>
    ensures { OnOk result
        (string_bytes text.new ≡ string_bytes text.old ++ end_text ended.now words.now) }
{
    attempt!(push_counts(text, ended));
    push_ending(text, ended, ended.ending, words)
}
