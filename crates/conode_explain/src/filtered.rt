//! Which lines are printed.

ghost use Rattle.std.specs.Prelude.{◌≡◌, IfOk, OnOk};
ghost use Rattle.std.specs.List.{list_any};
ghost use Rattle.conode_record.specs.Grammar.{IsIdentifier};
ghost use Rattle.conode_explain_filter.specs.Filters.{passes};
ghost use Rattle.conode_explain.specs.Filtered.{
  are_of_several,
  channel_subject,
  ends_with,
  first_node,
  has_toggle,
  is_news,
  is_repeating,
  is_rival,
  is_sent,
  lasts_told,
  of_one,
  passes_as_any,
  passes_end,
  passes_frame,
  repeats,
  said_id,
  service_subject,
  shows_end,
  shows_frame,
  subject_by,
  without_toggle,
};

use crate::progress::Layout;
use crate::whose::Whose;
use conode_explain_cob_ids::{Claim, NamedService};
use conode_explain_entries::ChannelIds;
use conode_explain_filter::{Filter, Kind, Lasts, Subject, Written};
use conode_explain_forms::data_of;
use conode_explain_text::{Seen, Times};
use conode_record::{Content, Identifier, Record};
use std::alloc::AllocError;

fn first_node(claims: &[Claim]) -> Option<u8>
    ensures { result ≡ first_node claims.now }
{
    match claims {
        [] => None,
        [claim, ..] => Some(claim.node),
    }
}

fn is_sent(claim: Claim) -> bool
    ensures { result ≡ is_sent claim }
{
    claim.index > 0x17FF
}

fn is_rival(first: Claim, claim: Claim) -> bool
    ensures { result ≡ is_rival first claim }
{
    claim.node != first.node && (is_sent(claim) || !is_sent(first))
}

fn any_rival(first: Claim, claims: &[Claim]) -> bool
    ensures { result ≡ list_any (is_rival first) claims.now }
{
    for claim in claims {
        if is_rival(first, *claim) {
            return true;
        }
    }
    false
}

fn are_of_several(claims: &[Claim]) -> bool
    ensures { result ≡ are_of_several claims.now }
{
    match claims {
        [] => false,
        [first, rest @ ..] => any_rival(*first, rest),
    }
}

fn of_one(several: bool, subject: Subject) -> Subject
    ensures { result ≡ of_one several subject }
{
    Subject {
        id: subject.id,
        kind: subject.kind,
        node: if several { None } else { subject.node },
    }
}

// of a service that a COB-ID names
fn service_subject(service: NamedService, subject: Subject) -> Subject
    ensures { result ≡ service_subject service subject }
{
    match service {
        NamedService::Sync => Subject {
            id: subject.id,
            kind: Kind::Sync,
            node: None,
        },
        NamedService::Time => Subject {
            id: subject.id,
            kind: Kind::Other,
            node: None,
        },
        NamedService::Emergency { node } => Subject {
            id: subject.id,
            kind: Kind::Emergency,
            node: Some(node),
        },
    }
}

/// The kind and the node of a frame that is these PDOs; no node, where it isn't known which of
/// several sends it; on an SDO channel other than a default one of its server; of a service that a
/// COB-ID names by that; no node where its identifier was moved away from.
#[tactic(auto, unfolding(crate::specs::Filtered::subject_by))]
pub(crate) fn subject_by(whose: Whose, claims: &[Claim], frame: &Record<'_>) -> Subject
    requires { IsIdentifier frame.now.id }
    ensures { result ≡ subject_by whose claims.now frame.now }
{
    let subject = of_one(
        are_of_several(claims),
        Subject::of(first_node(claims), frame),
    );
    match whose {
        Whose::Channel(place) => Subject {
            id: subject.id,
            kind: Kind::Sdo,
            node: Some(place.node),
        },
        Whose::Service(service) => service_subject(service, subject),
        Whose::Moved(_) => Subject {
            id: subject.id,
            kind: Kind::Other,
            node: None,
        },
        Whose::Unnamed => subject,
    }
}

// Whether a frame passes a filter as any of the PDOs that it is, so also as one that a node
// receives.
fn passes_as_any(filter: &Filter, times: Times, frame: &Record<'_>, claims: &[Claim]) -> bool
    requires { IsIdentifier frame.now.id }
    ensures { result ≡ passes_as_any filter.now times frame.now claims.now }
{
    for claim in claims {
        let subject = Subject::of(Some(claim.node), frame);
        if filter.passes(&subject, times) {
            return true;
        }
    }
    false
}

#[tactic(auto, unfolding(crate::specs::Filtered::passes_frame))]
fn passes_frame(
    form: &Layout<'_>,
    seen: &Seen,
    whose: Whose,
    claims: &[Claim],
    frame: &Record<'_>,
) -> bool
    requires { IsIdentifier frame.now.id }
    ensures { result ≡ passes_frame form.now seen.now whose claims.now frame.now }
{
    // in most cases there is none, and nothing of the frame is looked at
    if form.filter.is_open() {
        return true;
    }
    let subject = subject_by(whose, claims, frame);
    let times = seen.times(frame.micros);
    form.filter.passes(&subject, times) || passes_as_any(form.filter, times, frame, claims)
}

/// Whether the line of a frame that is these PDOs is printed: it passes the filter as one of them;
/// `whose` it is, if it is none.
pub(crate) fn shows_frame(
    form: &Layout<'_>,
    seen: &Seen,
    whose: Whose,
    claims: &[Claim],
    frame: &Record<'_>,
) -> bool
    requires { IsIdentifier frame.now.id }
    ensures { result ≡ shows_frame form.now seen.now whose claims.now frame.now }
{
    !form.transfers && passes_frame(form, seen, whose, claims, frame)
}

// whether a filter passes a frame with an identifier of an SDO channel other than a default one
fn passes_channel(filter: &Filter, node: u8, id: u16, times: Times) -> bool
    ensures { result ≡ passes filter.now (channel_subject node id) times }
{
    let subject = Subject {
        id: Written {
            wide: false,
            number: id as u32,
        },
        kind: Kind::Sdo,
        node: Some(node),
    };
    filter.passes(&subject, times)
}

fn passes_end(filter: &Filter, node: u8, ids: Option<ChannelIds>, times: Times) -> bool
    ensures { result ≡ passes_end filter.now node ids times }
{
    match ids {
        None => filter.passes_transfer(node, times),
        Some(ids) => {
            passes_channel(filter, node, ids.request, times)
                || passes_channel(filter, node, ids.answer, times)
        }
    }
}

/// Whether the line of a node's transfer that ended at this stamp is printed; in a table of signals
/// none is.
pub(crate) fn shows_end(
    form: &Layout<'_>,
    seen: &Seen,
    micros: u64,
    node: u8,
    ids: Option<ChannelIds>,
) -> bool
    ensures { result ≡ shows_end form.now seen.now micros node ids }
{
    form.signals.is_empty() && passes_end(form.filter, node, ids, seen.times(micros))
}

// of these kinds only changes are printed, where that is asked for
fn repeats(kind: Kind) -> bool
    ensures { result ≡ repeats kind }
{
    matches!(kind, Kind::Pdo | Kind::Heartbeat | Kind::Sync)
}

fn is_repeating(form: &Layout<'_>, whose: Whose, claims: &[Claim], frame: &Record<'_>) -> bool
    requires { IsIdentifier frame.now.id }
    ensures { result ≡ is_repeating form.now (subject_by whose claims.now frame.now) }
{
    form.changes && repeats(subject_by(whose, claims, frame).kind)
}

fn ends_with(words: &[u8], end: &[u8]) -> bool
    ensures { result ≡ ends_with words.now end.now }
{
    let start = words.len().saturating_sub(end.len());
    &words[start..] == end
}

// whether words end with the toggle bit of a guarding answer
fn has_toggle(kind: Kind, words: &[u8]) -> bool
    ensures { result ≡ has_toggle kind words.now }
{
    match kind {
        Kind::Heartbeat => ends_with(words, b" toggle 0") || ends_with(words, b" toggle 1"),
        _ => false,
    }
}

fn without_toggle(words: &[u8]) -> &[u8]
    ensures { result.now ≡ without_toggle words.now }
{
    &words[..words.len().saturating_sub(1)]
}

// the identifier, and for a remote frame bit 30
fn said_id(number: u32, id: Identifier, content: &Content<'_>) -> u32
    requires { IsIdentifier id }
    ensures { result ≡ said_id number id content.now }
{
    match content {
        Content::Remote(_) => match id {
            Identifier::Base(id) => 0x4000_0000 + id as u32,
            _ => number,
        },
        _ => number,
    }
}

/// Whether a frame that is these PDOs and says these words has a line. Where only changes are asked
/// for, a PDO, error control or a SYNC has one only if it says something new, and its words are kept.
/// On an `Err` memory ran out.
#[tactic(auto, unfolding(crate::specs::Filtered::is_news, crate::specs::Filtered::lasts_told))]
pub(crate) fn is_news(
    lasts: &mut Lasts,
    form: &Layout<'_>,
    whose: Whose,
    claims: &[Claim],
    frame: &Record<'_>,
    words: &[u8],
) -> Result<bool, AllocError>
    requires { IsIdentifier frame.now.id }
    ensures news { IfOk result (λ news. news ≡ is_news form.now lasts.old
        (subject_by whose claims.now frame.now) frame.now words.now) }
    ensures lasts { OnOk result (lasts.new ≡ lasts_told form.now lasts.old
        (subject_by whose claims.now frame.now) frame.now words.now) }
{
    if !is_repeating(form, whose, claims, frame) {
        return Ok(true);
    }
    let subject = subject_by(whose, claims, frame);
    let id = said_id(subject.id.number, frame.id, &frame.content);
    let interface = frame.interface.bytes();
    if has_toggle(subject.kind, words) {
        return lasts.take(interface, id, &[], without_toggle(words));
    }
    lasts.take(interface, id, data_of(&frame.content).as_slice(), words)
}
