//! The lines of frames.

ghost use Rattle.std.specs.Prelude.{◌≡◌, ◌++◌, IfOk, OnOk, string_bytes};
ghost use Rattle.conode_explain_cob_ids.specs.Buses.{bus_view};
ghost use Rattle.conode_io.specs.Written.{WritesLines};
ghost use Rattle.conode_record.specs.Grammar.{IsIdentifier};
ghost use Rattle.conode_explain.specs.Explained.{
  bus_of,
  claims_at,
  first_lines,
  frame_line,
  frame_lines,
  header_lines,
  heard_at,
  is_segment,
  lasts_with,
  lines_by,
  news_lines,
  progress_by,
  progress_with,
  signal_lines,
  told_at,
  words_at,
};
ghost use Rattle.conode_explain.specs.Filtered.{lasts_told, subject_by};
ghost use Rattle.conode_explain.specs.Sheets.{sheets_of};
ghost use Rattle.conode_explain.specs.Whose.{whose_of};
ghost use Rattle.conode_explain_forms.specs.Places.{read_as};

use crate::ends::write_told_ends;
use crate::filtered::{is_news, shows_frame, subject_by};
use crate::no_channel::NoChannel;
use crate::progress::{Layout, LineFormat, Progress, may_be_told};
use crate::settings::Settings;
use crate::told_words::set_told_words;
use crate::whose::{Whose, is_named, read_by, whose_of};
use conode_explain_cob_ids::{Bus, Claim, add_claims, is_unnamed};
use conode_explain_entries::{Entries, Place, push_moved, segment_number};
use conode_explain_filter::Lasts;
use conode_explain_forms::{
    data_of, frame_tone, header, json_line, place_of, put_tone, read_as, set_signal_line,
};
use conode_explain_services::Nodes;
use conode_explain_text::{Seen, set_line};
use conode_explain_transfers::Told;
use conode_io::{CmdFault, hand_over};
use conode_record::{Identifier, Record};
use std::alloc::{AllocError, Global};
use std::io::Write;

/// Scratch space for a line, reused for each one.
#[derive(Drop)]
pub(crate) struct Room {
    pub(crate) alloc: Global,
    pub(crate) said: String,
    pub(crate) text: String,
    pub(crate) line: Vec<u8>,
}

// what is known of the PDOs of a frame's bus
fn bus_of<'k, 'e, 'i, 's, 'a>(
    settings: &Settings<'_, 'k, 's, 'a>,
    entries: &'e Entries,
    frame: &'i Record<'_>,
) -> Bus<'k, 'e, 'i, 's, 'a>
    ensures { bus_view result ≡ bus_of (sheets_of settings.now) entries.now frame.now }
{
    Bus {
        sheets: settings.sheets,
        entries,
        interface: frame.interface.bytes(),
    }
}

// Sets `claims` to the PDOs that have an identifier.
fn set_claims(
    claims: &mut Vec<Claim>,
    bus: Bus<'_, '_, '_, '_, '_>,
    id: Identifier,
) -> Result<(), AllocError>
    ensures { OnOk result (claims.new.items ≡ claims_at (bus_view bus.entry) id) }
{
    claims.clear();
    match id {
        Identifier::Base(id) => add_claims(claims, bus, id),
        _ => Ok(()),
    }
}

// Sets `claims` to the PDOs that a frame is; whose it is, if it is none. Apart from most frames, which
// no COB-ID names.
#[inline(never)]
fn set_named(
    claims: &mut Vec<Claim>,
    bus: Bus<'_, '_, '_, '_, '_>,
    place: Option<Place>,
    frame: &Record<'_>,
) -> Result<Whose, AllocError>
    requires { IsIdentifier frame.now.id }
    ensures claims { OnOk result
        (claims.new.items ≡ claims_at (bus_view bus.entry) (read_as place frame.now.id)) }
    ensures whose { IfOk result
        (λ whose. whose ≡ whose_of (bus_view bus.entry) place claims.new.items frame.now) }
{
    attempt!(set_claims(claims, bus, read_as(place, frame.id)));
    Ok(whose_of(bus, place, claims.as_slice(), frame))
}

// The same; of most frames one look at their identifier is enough.
#[inline(always)]
#[tactic(auto, using(crate::proofs::WhoseLemmas::no_claims, crate::proofs::WhoseLemmas::nobody))]
fn set_whose(
    claims: &mut Vec<Claim>,
    bus: Bus<'_, '_, '_, '_, '_>,
    place: Option<Place>,
    frame: &Record<'_>,
) -> Result<Whose, AllocError>
    requires { IsIdentifier frame.now.id }
    ensures claims { OnOk result
        (claims.new.items ≡ claims_at (bus_view bus.entry) (read_as place frame.now.id)) }
    ensures whose { IfOk result
        (λ whose. whose ≡ whose_of (bus_view bus.entry) place claims.new.items frame.now) }
{
    match (place, frame.id) {
        (None, Identifier::Base(id)) if is_unnamed(bus, id) => {
            claims.clear();
            Ok(Whose::Unnamed)
        }
        _ => set_named(claims, bus, place, frame),
    }
}

// Sets the line to that of a frame of which this is said, in the colour of a tone or as an object
// of JSON; `claims` are the PDOs that the frame is, `whose` it is, if it is none, `segment` is whether
// it is a segment of a sub-block. Apart from lines without colours, which need neither tone nor kind
// and less room on the stack.
#[inline(never)]
#[tactic(auto, unfolding(crate::specs::Explained::frame_line))]
fn set_other_line(
    room: &mut Room,
    form: &Layout<'_>,
    seen: &Seen,
    whose: Whose,
    claims: &[Claim],
    segment: bool,
    frame: &Record<'_>,
) -> Result<(), AllocError>
    requires { IsIdentifier frame.now.id }
    ensures { OnOk result (room.new.line.items ≡ frame_line form.now seen.now
        (subject_by whose claims.now frame.now) segment frame.now (string_bytes room.old.said)) }
{
    let subject = subject_by(whose, claims, frame);
    match form.format {
        LineFormat::Text => {
            attempt!(set_line(
                &mut room.line,
                &mut room.text,
                form.stamps,
                seen,
                frame,
                room.said.as_bytes(),
            ));
            let tone = frame_tone(seen, &subject, segment, frame);
            put_tone(room.alloc, &mut room.line, form.colours, tone)
        }
        LineFormat::Json => {
            let Ok(line) = json_line(
                room.alloc,
                form.stamps,
                seen,
                frame,
                room.said.as_bytes(),
                subject.kind,
                subject.node,
            ) else {
                return Err(AllocError);
            };
            room.line = line;
            Ok(())
        }
    }
}

// The same; most lines are text without colours.
#[tactic(auto, unfolding(crate::specs::Explained::frame_line, conode_explain_forms::specs::Tones::toned))]
fn set_frame_line(
    room: &mut Room,
    form: &Layout<'_>,
    seen: &Seen,
    whose: Whose,
    claims: &[Claim],
    segment: bool,
    frame: &Record<'_>,
) -> Result<(), AllocError>
    requires { IsIdentifier frame.now.id }
    ensures { OnOk result (room.new.line.items ≡ frame_line form.now seen.now
        (subject_by whose claims.now frame.now) segment frame.now (string_bytes room.old.said)) }
{
    match form.format {
        LineFormat::Text if !form.colours => set_line(
            &mut room.line,
            &mut room.text,
            form.stamps,
            seen,
            frame,
            room.said.as_bytes(),
        ),
        _ => set_other_line(room, form, seen, whose, claims, segment, frame),
    }
}

// Sets `said` to what a frame says; `claims` are the PDOs that it is, `whose` it is, if it is none,
// `nodes` have what the last frames of its node had.
// inlined, so that no copy of `bus` is made for the words of most frames
#[inline(always)]
#[tactic(auto, unfolding(crate::specs::Explained::words_at))]
fn set_words_at(
    said: &mut String,
    bus: Bus<'_, '_, '_, '_, '_>,
    claims: &[Claim],
    whose: Whose,
    nodes: &Nodes,
    frame: &Record<'_>,
    told: &Option<Told>,
) -> Result<(), AllocError>
    requires { IsIdentifier frame.now.id }
    ensures { OnOk result (string_bytes said.new
        ≡ words_at (bus_view bus.entry) claims.now whose nodes.now frame.now told.now) }
{
    match whose {
        Whose::Moved(moved) => {
            said.clear();
            push_moved(said, moved)
        }
        Whose::Channel(_) | Whose::Service(_) | Whose::Unnamed => {
            let id = read_by(whose, frame.id);
            set_told_words(said, bus, claims, is_named(whose), nodes, id, frame, told)
        }
    }
}

fn is_segment(told: &Option<Told>) -> bool
    ensures { result ≡ is_segment told.now }
{
    match told {
        Some(told) => match told.part {
            Some(part) => segment_number(part.what).is_some(),
            None => false,
        },
        None => false,
    }
}

// Writes the line of a frame that is asked for, if it says something new; `claims` are the PDOs
// that it is, `whose` it is, if it is none, `nodes` have what the last frames of its node had.
#[tactic(auto, using(crate::proofs::WriteSets::one_line))]
fn write_news<W: Write>(
    room: &mut Room,
    form: &Layout<'_>,
    seen: &Seen,
    lasts: &mut Lasts,
    bus: Bus<'_, '_, '_, '_, '_>,
    claims: &[Claim],
    whose: Whose,
    nodes: &Nodes,
    frame: &Record<'_>,
    told: &Option<Told>,
    out: &mut W,
) -> Result<(), CmdFault>
    requires { IsIdentifier frame.now.id }
    ensures lines { OnOk result (WritesLines (W.contents out.old) (W.contents out.new)
        (news_lines form.now seen.now lasts.old (subject_by whose claims.now frame.now)
        (is_segment told.now) frame.now
        (words_at (bus_view bus.entry) claims.now whose nodes.now frame.now told.now))) }
    ensures lasts { OnOk result (lasts.new ≡ lasts_told form.now lasts.old
        (subject_by whose claims.now frame.now) frame.now
        (words_at (bus_view bus.entry) claims.now whose nodes.now frame.now told.now)) }
{
    let said = &mut room.said;
    attempt_in_memory!(set_words_at(said, bus, claims, whose, nodes, frame, told));
    let words = room.said.as_bytes();
    match is_news(lasts, form, whose, claims, frame, words) {
        Ok(true) => {}
        Ok(false) => return Ok(()),
        Err(_) => return Err(CmdFault::Memory),
    }
    let segment = is_segment(told);
    attempt_in_memory!(set_frame_line(room, form, seen, whose, claims, segment, frame));
    hand_over(room.line.as_slice(), out)
}

// Writes the line of a frame that is asked for in a table of signals, if it has a value of one.
#[inline(never)]
#[tactic(auto, unfolding(crate::specs::Explained::signal_lines), using(crate::proofs::WriteSets::one_line))]
fn write_signals<W: Write>(
    text: &mut String,
    form: &Layout<'_>,
    seen: &Seen,
    bus: Bus<'_, '_, '_, '_, '_>,
    claims: &[Claim],
    frame: &Record<'_>,
    told: &Option<Told>,
    out: &mut W,
) -> Result<(), CmdFault>
    ensures { OnOk result (WritesLines (W.contents out.old) (W.contents out.new)
        (signal_lines form.now seen.now (bus_view bus.entry) claims.now frame.now told.now)) }
{
    let data = data_of(&frame.content);
    let times = seen.times(frame.micros);
    match set_signal_line(
        text,
        form.stamps,
        times,
        bus,
        claims,
        data.as_slice(),
        told,
        form.signals,
    ) {
        Ok(true) => hand_over(text.as_bytes(), out),
        Ok(false) => Ok(()),
        Err(_) => Err(CmdFault::Memory),
    }
}

// Writes the line of a frame, or where signals are asked for, that of a table, if it is asked for.
#[tactic(auto, unfolding(crate::specs::Explained::first_lines, crate::specs::Explained::lasts_with), using(crate::proofs::WriteSets::one_line))]
fn write_first<W: Write>(
    room: &mut Room,
    form: &Layout<'_>,
    seen: &Seen,
    lasts: &mut Lasts,
    bus: Bus<'_, '_, '_, '_, '_>,
    claims: &[Claim],
    whose: Whose,
    nodes: &Nodes,
    frame: &Record<'_>,
    told: &Option<Told>,
    out: &mut W,
) -> Result<(), CmdFault>
    requires { IsIdentifier frame.now.id }
    ensures lines { OnOk result (WritesLines (W.contents out.old) (W.contents out.new)
        (first_lines form.now (bus_view bus.entry) claims.now whose nodes.now seen.now lasts.old
        frame.now told.now)) }
    ensures lasts { OnOk result (lasts.new
        ≡ lasts_with form.now (bus_view bus.entry) claims.now whose nodes.now seen.now lasts.old
        frame.now told.now) }
{
    if !shows_frame(form, seen, whose, claims, frame) {
        return Ok(());
    }
    if form.signals.is_empty() {
        return write_news(
            room, form, seen, lasts, bus, claims, whose, nodes, frame, told, out,
        );
    }
    write_signals(&mut room.text, form, seen, bus, claims, frame, told, out)
}

/// Writes the first line of a table of signals, where they are asked for.
#[tactic(auto, using(conode_io::proofs::WriteLemmas::line_alone))]
pub(crate) fn write_header<W: Write>(
    alloc: Global,
    settings: &Settings<'_, '_, '_, '_>,
    out: &mut W,
) -> Result<(), CmdFault>
    ensures lines { OnOk result (WritesLines (W.contents out.old) (W.contents out.new)
        (header_lines settings.now.form (sheets_of settings.now))) }
{
    if settings.form.signals.is_empty() {
        return Ok(());
    }
    let Ok(line) = header(alloc, settings.sheets, settings.form.signals) else {
        return Err(CmdFault::Memory);
    };
    hand_over(line.as_slice(), out)
}

// Writes the line of a frame of which its SDO channel says this, and that of the transfer that
// ended with it, those that are asked for, and adds the frame to what the recording showed;
// `claims` is scratch space for its PDOs.
#[tactic(auto, unfolding(crate::specs::Explained::lines_by, crate::specs::Explained::progress_by), using(conode_io::proofs::WriteLemmas::lines_after))]
fn write_by<W: Write>(
    room: &mut Room,
    claims: &mut Vec<Claim>,
    progress: &mut Progress,
    settings: &Settings<'_, '_, '_, '_>,
    place: Option<Place>,
    frame: &Record<'_>,
    told: &Option<Told>,
    out: &mut W,
) -> Result<(), CmdFault>
    requires { IsIdentifier frame.now.id }
    ensures lines { OnOk result (WritesLines (W.contents out.old) (W.contents out.new)
        (lines_by settings.now.form (sheets_of settings.now) progress.old place frame.now
        told.now)) }
    ensures progress { OnOk result (progress.new ≡ progress_by settings.now.form
        (sheets_of settings.now) progress.old place frame.now told.now) }
{
    let bus = bus_of(settings, &progress.entries, frame);
    let Ok(whose) = set_whose(claims, bus, place, frame) else {
        return Err(CmdFault::Memory);
    };
    attempt!(write_first(
        room,
        &settings.form,
        &progress.seen,
        &mut progress.lasts,
        bus,
        claims.as_slice(),
        whose,
        &progress.nodes,
        frame,
        told,
        out,
    ));
    attempt!(write_told_ends(
        room,
        &progress.seen,
        settings,
        place,
        progress.further.channels(),
        frame,
        told,
        out,
    ));
    attempt_in_memory!(progress.add(frame, read_by(whose, frame.id), told));
    Ok(())
}

// The same of a frame of an SDO channel, which takes it. Apart from other frames, since what a
// channel says about a frame is large.
#[inline(never)]
fn write_heard<W: Write>(
    room: &mut Room,
    claims: &mut Vec<Claim>,
    progress: &mut Progress,
    settings: &Settings<'_, '_, '_, '_>,
    place: Option<Place>,
    frame: &Record<'_>,
    out: &mut W,
) -> Result<(), CmdFault>
    requires { IsIdentifier frame.now.id }
    ensures lines { OnOk result (WritesLines (W.contents out.old) (W.contents out.new)
        (lines_by settings.now.form (sheets_of settings.now)
        (heard_at progress.old frame.now place) place frame.now
        (told_at progress.old frame.now place))) }
    ensures progress { OnOk result (progress.new ≡ progress_by settings.now.form
        (sheets_of settings.now) (heard_at progress.old frame.now place) place frame.now
        (told_at progress.old frame.now place)) }
{
    let told = progress.tell_at(frame, place);
    // (by reference, since what is said is large)
    match &told {
        Ok(told) => write_by(room, claims, progress, settings, place, frame, told, out),
        Err(_) => Err(CmdFault::Memory),
    }
}

/// Writes the lines of a frame, and adds it to what the recording showed; `claims` is scratch space
/// for its PDOs, `no_channel` has what is said of a frame of no SDO channel.
#[tactic(auto, unfolding(crate::specs::Explained::frame_lines, crate::specs::Explained::progress_with), using(crate::proofs::TellingLemmas::nothing_said))]
pub(crate) fn write_frame<W: Write>(
    room: &mut Room,
    claims: &mut Vec<Claim>,
    progress: &mut Progress,
    settings: &Settings<'_, '_, '_, '_>,
    no_channel: &NoChannel,
    frame: &Record<'_>,
    out: &mut W,
) -> Result<(), CmdFault>
    requires { IsIdentifier frame.now.id }
    ensures lines { OnOk result (WritesLines (W.contents out.old) (W.contents out.new)
        (frame_lines settings.now.form (sheets_of settings.now) progress.old frame.now)) }
    ensures progress { OnOk result (progress.new
        ≡ progress_with settings.now.form (sheets_of settings.now) progress.old frame.now) }
{
    let bus = bus_of(settings, &progress.entries, frame);
    match place_of(bus, frame.id, &frame.content, settings.channels) {
        // most frames are of no SDO channel
        None if !may_be_told(frame.id, &frame.content) => {
            let told = no_channel.said();
            write_by(room, claims, progress, settings, None, frame, told, out)
        }
        place => write_heard(room, claims, progress, settings, place, frame, out),
    }
}
