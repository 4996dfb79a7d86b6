//! How many frames of the device have which verdict.

ghost use Rattle.std.specs.Prelude.{◌≡◌, ◌++◌, OnOk, string_bytes};
ghost use Rattle.conode_compare_text.specs.Tallies.{
  no_frames,
  summary,
  tally_text,
  tally_with,
  tally_words,
  unjudged_line,
  unjudged_with,
  with_verdict,
};

use crate::value::Value;
use conode_compare_rules::{FrameKind, Verdict};
use conode_text::push_filled;
use std::alloc::AllocError;

/// How many frames of each service are unjudged, up to 2^64 - 1. Frames of other services have no
/// verdict.
#[derive(Clone, Copy)]
pub struct Unjudged {
    /// Of error control: heartbeats, and answers of node guarding.
    pub heartbeats: u64,
    /// EMCY.
    pub emergencies: u64,
    /// Of the default SDO channel: answers of the server.
    pub answers: u64,
    /// TPDOs.
    pub tpdos: u64,
}

impl Unjudged {
    // one more, by what it is
    fn add(&mut self, kind: &FrameKind)
        ensures { self.new ≡ unjudged_with self.old kind.now }
    {
        match kind {
            FrameKind::Control(_) | FrameKind::OddControl(_) => {
                self.heartbeats = self.heartbeats.saturating_add(1);
            }
            FrameKind::Emergency(_, _) | FrameKind::OddEmergency(_) => {
                self.emergencies = self.emergencies.saturating_add(1);
            }
            FrameKind::Sdo(_, _) => self.answers = self.answers.saturating_add(1),
            FrameKind::Process(_, _) => self.tpdos = self.tpdos.saturating_add(1),
            _ => {}
        }
    }
}

/// How many frames of the device have which verdict, up to 2^64 - 1.
#[derive(Clone, Copy)]
pub struct Tally {
    /// As prescribed.
    pub prescribed: u64,
    /// With a difference.
    pub different: u64,
    /// Unjudged.
    pub unjudged: u64,
    /// Of which services these are.
    pub services: Unjudged,
}

impl Tally {
    /// None came.
    pub fn new() -> Tally
        ensures { result ≡ no_frames }
    {
        Tally {
            prescribed: 0,
            different: 0,
            unjudged: 0,
            services: Unjudged {
                heartbeats: 0,
                emergencies: 0,
                answers: 0,
                tpdos: 0,
            },
        }
    }

    // one more with a verdict
    fn add(&mut self, kind: &FrameKind, verdict: Verdict)
        ensures { self.new ≡ with_verdict self.old kind.now verdict }
    {
        match verdict {
            Verdict::Prescribed => self.prescribed = self.prescribed.saturating_add(1),
            Verdict::Different => self.different = self.different.saturating_add(1),
            Verdict::Unjudged => {
                self.unjudged = self.unjudged.saturating_add(1);
                self.services.add(kind);
            }
        }
    }

    /// Counts a frame of this kind, if it is one of the device: only such a frame has a verdict.
    pub fn count(&mut self, kind: &FrameKind, verdict: Option<Verdict>)
        ensures { self.new ≡ tally_with self.old kind.now verdict }
    {
        if let Some(verdict) = verdict {
            self.add(kind, verdict);
        }
    }
}

fn tally_words(prescribed: u64) -> &'static str
    ensures { result.now ≡ tally_words prescribed }
{
    if prescribed == 1 {
        "node %: % frame as prescribed, % with a difference, % unjudged"
    } else {
        "node %: % frames as prescribed, % with a difference, % unjudged"
    }
}

/// How many frames have which verdict, in words.
#[tactic(auto, unfolding(crate::specs::Tallies::tally_text))]
pub(crate) fn push_tally(text: &mut String, node: u8, tally: Tally) -> Result<(), AllocError>
    ensures { OnOk result
        (string_bytes text.new ≡ string_bytes text.old ++ tally_text node tally) }
{
    push_filled(
        text,
        tally_words(tally.prescribed),
        &[
            Value::Number(node as u64),
            Value::Number(tally.prescribed),
            Value::Number(tally.different),
            Value::Number(tally.unjudged),
        ],
    )
}

/// Sets a text to the line that ends a comparison, with its line feed. On an `Err` memory ran out,
/// and a part of it may be there.
#[tactic(auto, unfolding(crate::specs::Tallies::summary))]
pub fn set_summary(text: &mut String, node: u8, tally: Tally) -> Result<(), AllocError>
    ensures { OnOk result (string_bytes text.new ≡ summary node tally) }
{
    text.clear();
    attempt!(push_tally(text, node, tally));
    text.push('\n')
}

/// Sets a text to the line that says of which services the unjudged frames are, with its line feed.
/// On an `Err` memory ran out, and a part of it may be there.
#[tactic(auto, unfolding(crate::specs::Tallies::unjudged_line))]
pub fn set_unjudged_line(text: &mut String, services: Unjudged) -> Result<(), AllocError>
    ensures { OnOk result (string_bytes text.new ≡ unjudged_line services) }
{
    text.clear();
    push_filled(
        text,
        "unjudged: heartbeats %, EMCY %, SDO answers %, TPDOs %\n",
        &[
            Value::Number(services.heartbeats),
            Value::Number(services.emergencies),
            Value::Number(services.answers),
            Value::Number(services.tpdos),
        ],
    )
}
