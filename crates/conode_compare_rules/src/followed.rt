//! Whether a device has followed a command, by what it sends.

ghost use Rattle.std.specs.Prelude.{◌≡◌, ◌&&◌};
ghost use Rattle.conode_compare_nmt.specs.States.{has_followed, is_idle, with_followed, with_left};
ghost use Rattle.conode_compare_rules.specs.Channels.{follows_asked, nmt_heard, shows_by_answer};
ghost use Rattle.conode_compare_rules.specs.EmergencyRules.{shows_by_emergency};
ghost use Rattle.conode_compare_rules.specs.NmtFrames.{steady_when_free};

use crate::progress::Progress;
use conode_compare_nmt::{Limits, Nmt, Subject};
use conode_compare_transfers::{Asked, Exchange};
use conode_explain_transfers::Side;

// whether a request came later than the tolerance after the command, and after the device was seen to
// be stopped
fn follows_asked(limits: &Limits, started: u64, nmt: &Nmt, asked: Option<Asked>) -> bool
    ensures { result ≡ follows_asked limits.now started nmt.now asked }
{
    match asked {
        Some(asked) => {
            nmt.is_settled(limits, started, asked.micros) && nmt.is_steady(limits, asked.micros)
        }
        None => false,
    }
}

// whether an answer shows that the device isn't stopped
fn shows_by_answer(limits: &Limits, started: u64, nmt: &Nmt, exchange: &Exchange) -> bool
    ensures { result ≡ shows_by_answer limits.now started nmt.now exchange.now }
{
    exchange.certain && follows_asked(limits, started, nmt, exchange.asked)
}

/// A frame of the SDO channel comes: an answer may show that the device isn't stopped, and has
/// followed a command.
pub(crate) fn note_heard(
    nmt: &mut Nmt,
    limits: &Limits,
    started: u64,
    micros: u64,
    side: Side,
    exchange: &Exchange,
)
    ensures { nmt.new ≡ nmt_heard limits.now started nmt.old micros side exchange.now }
{
    match side {
        Side::Client => {}
        Side::Server => {
            let shows = shows_by_answer(limits, started, nmt, exchange);
            if nmt.has_left_stopped() && shows {
                nmt.note_followed(micros);
            }
            nmt.note_left(shows, micros);
        }
    }
}

impl Progress {
    /// Notes what a frame shows that is one of its TPDOs, if `own`: that the device isn't stopped,
    /// and has followed a command.
    pub(crate) fn note_tpdo(&mut self, subject: &Subject, own: bool, micros: u64)
        ensures { self.new ≡ record self.old {
          nmt = with_left (with_followed self.old.nmt
              (has_followed (is_idle subject.now.facts.starts_itself) self.old.nmt
              && (own && steady_when_free subject.now self.old)) micros)
              (own && steady_when_free subject.now self.old) micros;
        } }
    {
        let shows = own && self.steady_when_free(subject);
        if self.nmt.is_running(subject.facts.starts_itself) && shows {
            self.nmt.note_followed(micros);
        }
        self.nmt.note_left(shows, micros);
    }

    /// Whether an EMCY shows that the device isn't stopped.
    pub(crate) fn shows_by_emergency(&self, subject: &Subject) -> bool
        ensures { result ≡ shows_by_emergency subject.now self.now }
    {
        self.entries.emergencies && self.steady_when_free(subject)
    }
}
