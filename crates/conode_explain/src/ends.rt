//! The lines of SDO transfers that ended.

ghost use Rattle.std.specs.Prelude.{◌≡◌, OnOk, string_bytes};
ghost use Rattle.std.specs.List.{flat_map};
ghost use Rattle.conode_io.specs.Written.{WritesLines};
ghost use Rattle.conode_explain_text.specs.Lines.{own_parts};
ghost use Rattle.conode_explain_text.specs.SoFar.{shows_interface, times_at};
ghost use Rattle.conode_explain.specs.Explained.{
  boot_lines,
  end_lines,
  end_line_as,
  ended_lines,
  interrupted_at,
  interrupted_in,
  seen_for,
  unfinished_in,
  unfinished_on,
};
ghost use Rattle.conode_explain.specs.Sheets.{sheets_of};

use crate::filtered::shows_end;
use crate::progress::{Layout, LineFormat, Progress};
use crate::settings::Settings;
use crate::told_words::set_ended_words;
use crate::writes::Room;
use conode_explain_cob_ids::names_for;
use conode_explain_entries::{ChannelIds, FurtherChannel, Place};
use conode_explain_forms::{end_json_line, ending_tone, put_tone};
use conode_explain_text::{Seen, set_own_line};
use conode_explain_transfers::{Ended, Ending, Told};
use conode_io::{CmdFault, hand_over};
use conode_record::Record;
use std::alloc::AllocError;
use std::io::Write;

// Sets the line to that of a node's transfer that ended, with the words that are said.
fn set_end_line(
    room: &mut Room,
    seen: &Seen,
    form: &Layout<'_>,
    micros: u64,
    interface: &[u8],
    node: u8,
    ended: &Ended,
) -> Result<(), AllocError>
    ensures { OnOk result (room.new.line.items ≡ end_line_as form.now node ended.now
        (own_parts form.now.stamps (times_at seen.now micros)
        (shows_interface (seen_for form.now.format seen.now) interface.now) interface.now
        (string_bytes room.old.said))) }
{
    let times = seen.times(micros);
    match form.format {
        LineFormat::Text => {
            attempt!(set_own_line(
                &mut room.line,
                &mut room.text,
                form.stamps,
                times,
                seen.shows_interface(interface),
                interface,
                room.said.as_bytes(),
            ));
            let tone = ending_tone(ended.ending);
            put_tone(room.alloc, &mut room.line, form.colours, tone)
        }
        LineFormat::Json => {
            let Ok(line) = end_json_line(
                room.alloc,
                form.stamps,
                times,
                interface,
                room.said.as_bytes(),
                node,
                ended,
            ) else {
                return Err(AllocError);
            };
            room.line = line;
            Ok(())
        }
    }
}

// Writes the line of the transfer that ended, if one did and it is asked for. It has the stamp and
// the interface of the frame that ended it.
#[tactic(auto, unfolding(crate::specs::Explained::end_line), using(crate::proofs::WriteSets::one_line))]
fn write_end<W: Write>(
    room: &mut Room,
    seen: &Seen,
    settings: &Settings<'_, '_, '_, '_>,
    micros: u64,
    interface: &[u8],
    node: u8,
    ids: Option<ChannelIds>,
    ended: &Option<Ended>,
    out: &mut W,
) -> Result<(), CmdFault>
    ensures lines { OnOk result (WritesLines (W.contents out.old) (W.contents out.new)
        (ended_lines settings.now.form (sheets_of settings.now) seen.now micros
        interface.now node ids ended.now)) }
{
    let Some(ended) = ended else {
        return Ok(());
    };
    if !shows_end(&settings.form, seen, micros, node, ids) {
        return Ok(());
    }
    let names = names_for(settings.sheets, interface, node);
    attempt_in_memory!(set_ended_words(&mut room.said, names, node, ids, ended));
    attempt_in_memory!(set_end_line(room, seen, &settings.form, micros, interface, node, ended));
    hand_over(room.line.as_slice(), out)
}

// an open transfer, ended by a boot-up
fn interrupted(unfinished: Option<Ended>) -> Option<Ended>
    ensures { result ≡ interrupted_at unfinished }
{
    let Some(mut ended) = unfinished else {
        return None;
    };
    ended.ending = Ending::Interrupted;
    Some(ended)
}

// Writes the line of a transfer that is open on a channel, if that is of a node that booted up.
#[tactic(auto, unfolding(crate::specs::Explained::interrupted_in), using(crate::proofs::WriteSets::one_line))]
fn write_interrupted<W: Write>(
    room: &mut Room,
    seen: &Seen,
    settings: &Settings<'_, '_, '_, '_>,
    micros: u64,
    interface: &[u8],
    node: u8,
    channel: &FurtherChannel,
    out: &mut W,
) -> Result<(), CmdFault>
    ensures lines { OnOk result (WritesLines (W.contents out.old) (W.contents out.new)
        (interrupted_in settings.now.form (sheets_of settings.now) seen.now micros
        interface.now node channel.now)) }
{
    if !channel.is_at(interface, node) {
        return Ok(());
    }
    let ended = interrupted(channel.channel.unfinished(micros));
    write_end(
        room,
        seen,
        settings,
        micros,
        interface,
        node,
        Some(channel.ids),
        &ended,
        out,
    )
}

// Of a frame that is a boot-up: writes the lines of the transfers that are open on the node's
// channels other than the default one.
fn write_boot_up<W: Write>(
    room: &mut Room,
    seen: &Seen,
    settings: &Settings<'_, '_, '_, '_>,
    channels: &[FurtherChannel],
    frame: &Record<'_>,
    told: &Told,
    out: &mut W,
) -> Result<(), CmdFault>
    ensures { OnOk result (WritesLines (W.contents out.old) (W.contents out.new)
        (boot_lines settings.now.form (sheets_of settings.now) seen.now channels.now
        frame.now told.now.node told.now.part)) }
{
    if told.part.is_some() {
        return Ok(());
    }
    let micros = frame.micros;
    let name = frame.interface.bytes();
    let node = told.node;
    for channel in channels {
        attempt!(write_interrupted(room, seen, settings, micros, name, node, channel, out));
    }
    Ok(())
}

/// Writes the lines of the transfers that ended with a frame, those that are asked for.
#[tactic(auto, unfolding(crate::specs::Explained::end_lines), using(conode_io::proofs::WriteLemmas::lines_after))]
pub(crate) fn write_told_ends<W: Write>(
    room: &mut Room,
    seen: &Seen,
    settings: &Settings<'_, '_, '_, '_>,
    place: Option<Place>,
    channels: &[FurtherChannel],
    frame: &Record<'_>,
    told: &Option<Told>,
    out: &mut W,
) -> Result<(), CmdFault>
    ensures { OnOk result (WritesLines (W.contents out.old) (W.contents out.new)
        (end_lines settings.now.form (sheets_of settings.now) seen.now place channels.now
        frame.now told.now)) }
{
    let Some(told) = told else {
        return Ok(());
    };
    let ids = match place {
        Some(place) => Some(place.ids),
        None => None,
    };
    let micros = frame.micros;
    let name = frame.interface.bytes();
    let node = told.node;
    attempt!(write_end(
        room, seen, settings, micros, name, node, ids, &told.left, out
    ));
    attempt!(write_end(
        room,
        seen,
        settings,
        micros,
        name,
        node,
        ids,
        &told.ended,
        out
    ));
    write_boot_up(room, seen, settings, channels, frame, told, out)
}

/// Writes the lines of the transfers that are open on channels other than the default ones.
pub(crate) fn write_unfinished_further<W: Write>(
    room: &mut Room,
    progress: &Progress,
    settings: &Settings<'_, '_, '_, '_>,
    out: &mut W,
) -> Result<(), CmdFault>
    ensures lines { OnOk result (WritesLines (W.contents out.old) (W.contents out.new)
        (flat_map (unfinished_on settings.now.form (sheets_of settings.now) progress.now.seen)
        progress.now.further)) }
{
    let seen = &progress.seen;
    let last = seen.last();
    let channels = progress.further.channels();
    for channel in channels {
        let ended = channel.channel.unfinished(last);
        attempt!(write_end(
            room,
            seen,
            settings,
            last,
            channel.interface.as_slice(),
            channel.node,
            Some(channel.ids),
            &ended,
            out,
        ));
    }
    Ok(())
}

/// Writes the lines of the transfers that are open on the default channels.
pub(crate) fn write_unfinished_default<W: Write>(
    room: &mut Room,
    progress: &Progress,
    settings: &Settings<'_, '_, '_, '_>,
    out: &mut W,
) -> Result<(), CmdFault>
    ensures lines { OnOk result (WritesLines (W.contents out.old) (W.contents out.new)
        (flat_map (unfinished_in settings.now.form (sheets_of settings.now) progress.now.seen)
        progress.now.channels)) }
{
    let seen = &progress.seen;
    let last = seen.last();
    for track in progress.channels.tracks() {
        let ended = track.channel.unfinished(last);
        attempt!(write_end(
            room,
            seen,
            settings,
            last,
            track.interface.as_slice(),
            track.node,
            None,
            &ended,
            out,
        ));
    }
    Ok(())
}
