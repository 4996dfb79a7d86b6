//! Which kinds of differences a frame could have shown, and how often each was found.

ghost use Rattle.std.specs.Prelude.{◌≡◌, true, map, option_map, IfOk};
ghost use Rattle.std.specs.List.{AllPairs};
ghost use Rattle.std.specs.Option.{option_copied};
ghost use Rattle.co_sheet.specs.SheetViews.{row_view};
ghost use Rattle.co_value.specs.Keys.{is_key_before};
ghost use Rattle.conode_compare_report.specs.Occasions.{
  all_passed,
  answer_passed,
  control_passed,
  counts_found,
  counts_passed,
  download_passed,
  emergency_passed,
  ended_passed,
  entry_of_upload,
  first_byte,
  frame_passed,
  has_key,
  has_segment,
  has_toggle,
  if_ended_passed,
  is_access_compared,
  is_block,
  is_booting,
  is_by_event,
  is_compared,
  is_done,
  is_expedited,
  is_free_since,
  is_refused,
  is_set,
  is_stopped,
  is_synchronous,
  kind_passed,
  no_counts,
  none_of,
  passes,
  role_passed,
  shows_value,
  side_passed,
  upload_passed,
  way_passed,
};

use crate::before::{Before, Role};
use crate::kind::{Counted, KINDS, Kind};
use co_profile::DEVICE_TYPE;
use co_sheet::EntryRow;
use co_sheet_changes::row_at;
use conode_compare_nmt::NmtState;
use conode_compare_rules::{FrameKind, Verdict};
use conode_compare_values::{has_limits, is_closed, is_held, is_readable, is_stored};
use conode_explain_transfers::{Direction, Ended, Ending, Heard, Protocol, Side, What};
use std::alloc::{AllocError, Global};

// each of these kinds, which nothing showed so far
fn none_of_all(alloc: Global, kinds: &[Kind]) -> Result<Vec<Counted>, AllocError>
    ensures { IfOk result (λ counts. counts.items ≡ map none_of kinds.now) }
{
    let mut counts = Vec::new(alloc);
    for kind in kinds {
        counts.push(Counted {
            kind: *kind,
            found: 0,
            occasions: 0,
        })?;
    }
    Ok(counts)
}

/// Each kind once, in the order of the table.
pub(crate) fn no_counts(alloc: Global) -> Result<Vec<Counted>, AllocError>
    ensures { IfOk result (λ counts. counts.items ≡ no_counts) }
{
    none_of_all(alloc, &KINDS)
}

// a frame could have shown a difference of this kind
#[tactic(auto, unfolding(crate::specs::Occasions::counts_passed))]
pub(crate) fn pass(counts: &mut [Counted], could: bool, kind: Kind)
    ensures { counts.new ≡ counts_passed could kind counts.old }
{
    let place = kind.number();
    if could && place < counts.len() {
        let counted = &mut counts[place];
        counted.occasions = counted.occasions.saturating_add(1);
    }
}

// a frame could have shown differences of these kinds, each where the test holds
fn pass_all(counts: &mut [Counted], kinds: &[(bool, Kind)])
    ensures { counts.new ≡ all_passed kinds.now counts.old }
{
    for (could, kind) in kinds {
        pass(counts, *could, *kind);
    }
}

/// A difference of this kind was found.
#[tactic(auto, unfolding(crate::specs::Occasions::counts_found))]
pub(crate) fn find(counts: &mut [Counted], kind: Kind)
    ensures { counts.new ≡ counts_found kind counts.old }
{
    let place = kind.number();
    if place < counts.len() {
        let counted = &mut counts[place];
        counted.found = counted.found.saturating_add(1);
        counted.occasions = counted.occasions.saturating_add(1);
    }
}

// a time that is known and isn't 0
fn is_set(time: Option<u16>) -> bool
    ensures { result ≡ is_set time }
{
    match time {
        Some(time) => time != 0,
        None => false,
    }
}

/// Whether the bus was free after this stamp, by when it was free last.
pub(crate) fn is_free_since(stamp: Option<u64>, free: u64) -> bool
    ensures { result ≡ is_free_since stamp free }
{
    match stamp {
        Some(stamp) => stamp < free,
        None => false,
    }
}

fn is_booting(state: NmtState) -> bool
    ensures { result ≡ is_booting state }
{
    matches!(state, NmtState::Initialising)
}

fn is_stopped(state: NmtState) -> bool
    ensures { result ≡ is_stopped state }
{
    matches!(state, NmtState::Stopped)
}

// a boot-up, or a heartbeat; `free`: the bus was free since the last one
#[tactic(auto, unfolding(crate::specs::Occasions::control_passed))]
fn pass_control(counts: &mut [Counted], before: &Before, free: bool, byte: u8)
    ensures { counts.new ≡ control_passed before.now free byte counts.old }
{
    let is_boot_up = byte == 0;
    let is_heartbeat = !is_boot_up && byte < 0x80;
    pass_all(
        counts,
        &[
            (true, Kind::HeartbeatLength),
            (is_heartbeat, Kind::HeartbeatState),
            (
                is_heartbeat && is_set(before.entries.period) && free,
                Kind::HeartbeatLate,
            ),
            (is_boot_up, Kind::SecondSender),
            (is_boot_up && is_booting(before.state), Kind::BootMissing),
        ],
    );
}

#[tactic(auto, unfolding(crate::specs::Occasions::emergency_passed))]
fn pass_emergency(counts: &mut [Counted], before: &Before)
    ensures { counts.new ≡ emergency_passed before.now counts.old }
{
    pass_all(
        counts,
        &[
            (true, Kind::EmergencyLength),
            (true, Kind::EmergencyState),
            (true, Kind::EmergencyRegister),
            (is_set(before.entries.inhibit), Kind::EmergencyInhibit),
        ],
    );
}

// sent after a SYNC
fn is_synchronous(kind: Option<u8>) -> bool
    ensures { result ≡ is_synchronous kind }
{
    match kind {
        Some(kind) => kind <= 240,
        None => false,
    }
}

// sent by an event
fn is_by_event(kind: Option<u8>) -> bool
    ensures { result ≡ is_by_event kind }
{
    match kind {
        Some(kind) => 254 <= kind,
        None => false,
    }
}

// a data frame: a TPDO
#[tactic(auto, unfolding(crate::specs::Occasions::tpdo_passed))]
fn pass_role(counts: &mut [Counted], role: Role)
    ensures { counts.new ≡ role_passed role counts.old }
{
    let Role::Tpdo(_, parameters) = role else {
        return;
    };
    let by_event = is_by_event(parameters.kind);
    pass_all(
        counts,
        &[
            (parameters.length.is_some(), Kind::PdoLength),
            (true, Kind::PdoState),
            (is_synchronous(parameters.kind), Kind::PdoSync),
            (by_event && is_set(parameters.inhibit), Kind::PdoInhibit),
            (by_event && is_set(parameters.timer), Kind::PdoLate),
        ],
    );
}

// a segment of a sub-block, which has no command
fn has_segment(heard: &Option<Heard>) -> bool
    ensures { result ≡ has_segment heard.now }
{
    let Some(heard) = heard else {
        return false;
    };
    match heard.what {
        What::Segment { number: _ } => true,
        What::OutOfSequence {
            number: _,
            awaited: _,
        } => true,
        _ => false,
    }
}

// whether an answer with this command has a multiplexer
fn has_key(command: u8) -> bool
    ensures { result ≡ has_key command }
{
    (0x40 <= command && command < 0x80)
        || command == 0xA0
        || command == 0xA4
        || command == 0xC0
        || command == 0xC2
        || command == 0xC4
        || command == 0xC6
}

// an answer, with a command where it is no segment of a sub-block
#[tactic(auto, unfolding(crate::specs::Occasions::answer_passed, crate::specs::Occasions::command_passed))]
fn pass_answer(counts: &mut [Counted], in_sub_block: bool, command: u8)
    ensures { counts.new ≡ answer_passed in_sub_block command counts.old }
{
    if !in_sub_block {
        let answers_request = has_key(command) || command == 0x80;
        pass_all(
            counts,
            &[
                (command < 0x40, Kind::AnswerToggle),
                (has_key(command), Kind::AnswerKey),
                (command == 0x80, Kind::AbortKey),
                (answers_request, Kind::NoAnswer),
            ],
        );
    }
    pass_all(
        counts,
        &[(true, Kind::SecondSender), (true, Kind::AnswerForm)],
    );
}

fn first_byte(bytes: &[u8]) -> u8
    ensures { result ≡ first_byte bytes.now }
{
    match bytes {
        [byte, ..] => *byte,
        _ => 0,
    }
}

fn pass_side(
    counts: &mut [Counted],
    side: Side,
    before: &Before,
    heard: &Option<Heard>,
    bytes: &[u8],
)
    ensures { counts.new ≡ side_passed side before.now heard.now bytes.now counts.old }
{
    match side {
        Side::Client => pass(counts, is_stopped(before.state), Kind::AnswerState),
        Side::Server => pass_answer(counts, has_segment(heard), first_byte(bytes)),
    }
}

/// Whether a transfer was confirmed.
pub(crate) fn is_done(ending: Ending) -> bool
    ensures { result ≡ is_done ending }
{
    matches!(ending, Ending::Done { crc: _ })
}

// whether the device aborted the transfer
fn is_refused(ending: Ending) -> bool
    ensures { result ≡ is_refused ending }
{
    match ending {
        Ending::Aborted {
            by: Side::Server,
            code: _,
        } => true,
        _ => false,
    }
}

fn is_expedited(protocol: Protocol) -> bool
    ensures { result ≡ is_expedited protocol }
{
    matches!(protocol, Protocol::Expedited)
}

fn is_block(protocol: Protocol) -> bool
    ensures { result ≡ is_block protocol }
{
    matches!(protocol, Protocol::Block)
}

// whether an upload shows a value, which is compared where the entry is readable
fn shows_value(row: &EntryRow<'_>, done: bool) -> bool
    ensures { result ≡ shows_value (row_view row.now) done }
{
    done && is_readable(row.access)
}

// whether a value is compared with the data sheet's; modules decide what a modular device's device
// type is
fn is_compared(modular: bool, row: &EntryRow<'_>) -> bool
    ensures { result ≡ is_compared modular (row_view row.now) }
{
    is_held(row) && !(modular && row.key.index == DEVICE_TYPE)
}

// whether it is compared whether an entry may be read: of a modular device its modules decide that,
// of 1010h and 1011h CiA 301, where the data sheet has them as write only
fn is_access_compared(modular: bool, row: &EntryRow<'_>) -> bool
    ensures { result ≡ is_access_compared modular (row_view row.now) }
{
    !modular && (is_readable(row.access) || !is_stored(row.key.index))
}

// an upload of an entry
fn pass_entry(counts: &mut [Counted], modular: bool, row: Option<&EntryRow<'_>>, done: bool)
    ensures { counts.new
        ≡ entry_of_upload modular (option_map row_view (option_copied row.entry)) done counts.old }
{
    if let Some(row) = row {
        let shows = shows_value(row, done);
        pass_all(
            counts,
            &[
                (shows, Kind::ValueLength),
                (shows && is_compared(modular, row), Kind::ValueConst),
                (is_access_compared(modular, row), Kind::AccessRead),
            ],
        );
    }
}

#[tactic(auto, unfolding(crate::specs::Occasions::upload_passed))]
fn pass_upload(
    counts: &mut [Counted],
    modular: bool,
    row: Option<&EntryRow<'_>>,
    done: bool,
    protocol: Protocol,
)
    ensures { counts.new ≡ upload_passed
        modular (option_map row_view (option_copied row.entry)) done protocol counts.old }
{
    let expedited = is_expedited(protocol);
    pass_entry(counts, modular, row, done);
    pass_all(
        counts,
        &[
            (done && !expedited, Kind::AnswerSize),
            (done && is_block(protocol), Kind::AnswerCrc),
        ],
    );
}

fn pass_download(counts: &mut [Counted], row: Option<&EntryRow<'_>>)
    ensures { counts.new ≡ download_passed (option_map row_view
        (option_copied row.entry)) counts.old }
{
    if let Some(row) = row {
        pass_all(
            counts,
            &[
                (is_closed(row), Kind::AccessWrite),
                (has_limits(row), Kind::AccessLimits),
            ],
        );
    }
}

// a transfer that was confirmed, or refused by the device
#[tactic(auto, unfolding(crate::specs::Occasions::ended_passed))]
fn pass_ended(counts: &mut [Counted], modular: bool, rows: &[EntryRow<'_>], ended: &Ended)
    requires { AllPairs (λ e f. is_key_before e.key f.key ≡ true) rows.now }
    ensures { counts.new ≡ ended_passed modular (map row_view rows.now) ended.now counts.old }
{
    let done = is_done(ended.ending);
    if !done && !is_refused(ended.ending) {
        return;
    }
    let row = row_at(rows, ended.key);
    match ended.direction {
        Direction::Upload => pass_upload(counts, modular, row, done, ended.protocol),
        Direction::Download => pass_download(counts, row),
    }
}

fn pass_kind(
    counts: &mut [Counted],
    kind: &FrameKind,
    before: &Before,
    free: bool,
    heard: &Option<Heard>,
)
    ensures { counts.new ≡ kind_passed kind.now before.now free heard.now counts.old }
{
    match kind {
        FrameKind::Control(byte) => pass_control(counts, before, free, *byte),
        FrameKind::Emergency(_, _) => pass_emergency(counts, before),
        FrameKind::Process(_, _) => pass_role(counts, before.role),
        FrameKind::Sdo(side, frame) => pass_side(counts, *side, before, heard, frame.bytes()),
        _ => {}
    }
}

// a frame that shows no difference, and isn't unjudged
fn passes(verdict: Option<Verdict>) -> bool
    ensures { result ≡ passes verdict }
{
    match verdict {
        Some(Verdict::Different) | Some(Verdict::Unjudged) => false,
        Some(Verdict::Prescribed) | None => true,
    }
}

/// Counts the kinds that a frame could have shown. What ended with it is in `heard`, and counts where
/// it is `judged`; `free`: the bus was free since the last frame of error control.
#[tactic(auto, unfolding(crate::specs::Occasions::frame_passed))]
pub(crate) fn pass_frame(
    counts: &mut [Counted],
    rows: &[EntryRow<'_>],
    kind: &FrameKind,
    before: &Before,
    free: bool,
    heard: &Option<Heard>,
    judged: bool,
    verdict: Option<Verdict>,
)
    requires { AllPairs (λ e f. is_key_before e.key f.key ≡ true) rows.now }
    ensures { counts.new
        ≡ frame_passed (map row_view rows.now) kind.now before.now free heard.now judged verdict
        counts.old }
{
    if !passes(verdict) {
        return;
    }
    pass_kind(counts, kind, before, free, heard);
    if !judged {
        return;
    }
    if let Some(
        Heard {
            what: _,
            of: _,
            ended: Some(ended),
        },
    ) = heard
    {
        pass_ended(counts, before.modular, rows, ended);
    }
}
