//! What is noted of a device beside differences: warnings, its choices, and the values of its
//! entries.

ghost use Rattle.std.specs.Prelude.{◌≡◌, OnOk, IfOk, true, map};
ghost use Rattle.std.specs.List.{AllPairs};
ghost use Rattle.co_sheet.specs.SheetViews.{row_view};
ghost use Rattle.co_value.specs.Keys.{is_key_before};
ghost use Rattle.conode_io.specs.Written.{WritesLines};
ghost use Rattle.conode_compare.specs.Noted.{
  choice_lines,
  choosing_by,
  counted,
  learned_by,
  noted_at,
  noted_choice,
  nothing_noted,
  notes_with,
};
ghost use Rattle.conode_compare.specs.Views.{comparison_view};

use crate::writes::Settings;
use co_sheet::EntryRow;
use conode_compare_choices::{Choice, Choosing};
use conode_compare_nmt::Subject;
use conode_compare_notes::{Learned, Warning, Watched, stepped_back};
use conode_compare_rules::{FrameKind, Progress};
use conode_compare_text::set_choice_line;
use conode_compare_transfers::Exchange;
use conode_io::{CmdFault, hand_over};
use std::alloc::{AllocError, Global};
use std::io::Write;

/// What is noted of a device beside differences, as far as it is asked for.
#[derive(Drop)]
pub struct Notes {
    /// The stamp of the newest frame.
    pub newest: Option<u64>,
    /// What warnings rest on.
    pub watched: Watched,
    /// What choices rest on, if they are asked for.
    pub choosing: Choosing,
    /// How many frames show a choice, up to 2^64 - 1.
    pub choices: u64,
    /// The values of its entries.
    pub learned: Learned,
}

/// What is noted at a frame.
#[derive(Clone, Copy)]
pub(crate) struct Noted {
    /// What a user may want to know of the device.
    pub(crate) warning: Option<Warning>,
    /// What the device chose, if that is asked for.
    pub(crate) choice: Option<Choice>,
}

// what the device chose with a frame, if that is asked for
fn take_choice(
    wanted: bool,
    choosing: &mut Choosing,
    subject: &Subject,
    rows: &[EntryRow<'_>],
    kind: &FrameKind,
    progress: &Progress,
) -> Option<Choice>
    requires { AllPairs (λ e f. is_key_before e.key f.key ≡ true) rows.now }
    ensures choice { result ≡ noted_choice
        wanted subject.now (map row_view rows.now) choosing.old kind.now progress.now }
    ensures next { choosing.new ≡ choosing_by
        wanted subject.now (map row_view rows.now) choosing.old kind.now progress.now }
{
    if wanted {
        choosing.take(subject, rows, kind, progress)
    } else {
        None
    }
}

/// Writes the line of a choice, if there is one.
#[tactic(auto, using(conode_io::proofs::WriteLemmas::line_alone))]
pub(crate) fn write_choice<W: Write>(
    text: &mut String,
    recording: &str,
    number: u64,
    choice: Option<Choice>,
    out: &mut W,
) -> Result<(), CmdFault>
    ensures lines { OnOk result (WritesLines (W.contents out.old) (W.contents out.new)
        (choice_lines recording.now number choice)) }
{
    match choice {
        Some(choice) => {
            attempt_in_memory!(set_choice_line(text, recording, number, choice));
            hand_over(text.as_bytes(), out)
        }
        None => Ok(()),
    }
}

impl Notes {
    /// Nothing was noted.
    pub(crate) fn new(alloc: Global) -> Notes
        ensures { result ≡ nothing_noted }
    {
        Notes {
            newest: None,
            watched: Watched::new(alloc),
            choosing: Choosing::new(),
            choices: 0,
            learned: Learned::new(alloc),
        }
    }

    fn count(&mut self, choice: Option<Choice>)
        ensures { self.new ≡ record self.old { choices = counted self.old.choices choice } }
    {
        if choice.is_some() {
            self.choices = self.choices.saturating_add(1);
        }
    }

    fn learn(
        &mut self,
        settings: &Settings<'_, '_>,
        exchange: &Option<Exchange>,
    ) -> Result<(), AllocError>
        requires { AllPairs (λ e f. is_key_before e.key f.key ≡ true) settings.now.rows.now }
        ensures { OnOk result (self.new ≡ record self.old {
          learned = learned_by settings.now.learned (comparison_view settings.now).rows
              self.old.learned exchange.now;
        }) }
    {
        if settings.learned {
            self.learned.take(settings.rows, exchange)
        } else {
            Ok(())
        }
    }

    /// Takes a frame, by what it is to the device, and what the recording shows with it. Returns
    /// what is noted at it. On an `Err` memory ran out.
    #[tactic(auto, unfolding(crate::specs::Noted::notes_with, crate::specs::Noted::noted_at))]
    pub(crate) fn take(
        &mut self,
        settings: &Settings<'_, '_>,
        kind: &FrameKind,
        progress: &Progress,
    ) -> Result<Noted, AllocError>
        requires { AllPairs (λ e f. is_key_before e.key f.key ≡ true) settings.now.rows.now }
        ensures noted { IfOk result (λ noted. noted ≡ noted_at
            (comparison_view settings.now).choices
            (comparison_view settings.now).subject (comparison_view settings.now).rows
            self.old kind.now progress.now) }
        ensures next { OnOk result (self.new ≡ notes_with (comparison_view settings.now).choices
            (comparison_view settings.now).learned (comparison_view settings.now).subject
            (comparison_view settings.now).rows self.old kind.now progress.now) }
    {
        let stepped = stepped_back(self.newest, progress.newest);
        let warning = attempt!(
            self.watched
                .take(&settings.subject, settings.rows, kind, progress)
        );
        self.newest = progress.newest;
        let choice = take_choice(
            settings.choices,
            &mut self.choosing,
            &settings.subject,
            settings.rows,
            kind,
            progress,
        );
        self.count(choice);
        attempt!(self.learn(settings, &progress.exchange));
        Ok(Noted {
            warning: stepped.or(warning),
            choice,
        })
    }
}
