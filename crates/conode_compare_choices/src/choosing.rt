//! What choices rest on, and the choice of each frame.

ghost use Rattle.std.specs.Prelude.{◌≡◌, true, map};
ghost use Rattle.std.specs.List.{AllPairs};
ghost use Rattle.co_sheet.specs.SheetViews.{row_view};
ghost use Rattle.co_value.specs.Keys.{is_key_before};
ghost use Rattle.conode_compare_choices.specs.Choosings.{
  choice_in,
  choosing_before,
  choosing_with,
  chosen_at,
  nothing_chosen,
  request_with,
  taken,
};

use crate::choice::Choice;
use crate::choices::choice_at;
use crate::length_errors::LengthErrors;
use crate::phases::Phases;
use crate::request::Request;
use crate::timeouts::{resumed_with, timeout_choice};
use co_sheet::EntryRow;
use conode_compare_nmt::Subject;
use conode_compare_rules::{FrameKind, Progress};
use conode_compare_transfers::Exchange;
use conode_explain_transfers::{Side, What};

/// What choices rest on.
#[derive(Clone, Copy)]
pub struct Choosing {
    /// The newest initiate request of the SDO channel.
    pub request: Request,
    /// At which SYNC TPDOs are sent first.
    pub phases: Phases,
    /// For which frames an EMCY is awaited.
    pub errors: LengthErrors,
    /// How many microseconds the device had awaited the client's newest frame in the open transfer,
    /// where it hasn't answered that.
    pub resumed: Option<u64>,
}

// the newest initiate request after a frame
fn request_with(request: Request, kind: &FrameKind, exchange: &Option<Exchange>) -> Request
    ensures { result ≡ request_with request kind.now exchange.now }
{
    match (kind, exchange) {
        (FrameKind::Sdo(Side::Client, frame), Some(exchange)) => match exchange.heard.what {
            What::Initiate => Request::of(frame),
            _ => request,
        },
        _ => request,
    }
}

impl Choosing {
    /// Nothing is known.
    pub fn new() -> Choosing
        ensures { result ≡ nothing_chosen }
    {
        Choosing {
            request: Request::nothing(),
            phases: Phases::unknown(),
            errors: LengthErrors::unknown(),
            resumed: None,
        }
    }

    // A frame comes: where the recording begins anew, nothing is known.
    fn begin(&mut self, progress: &Progress)
        ensures { self.new ≡ choosing_before self.old progress.now }
    {
        if progress.is_begun() {
            *self = Choosing::new();
        }
    }

    // one of the choices of a frame
    #[tactic(auto, unfolding(crate::specs::Choosings::choice_in))]
    fn choice_in(
        &self,
        subject: &Subject,
        rows: &[EntryRow<'_>],
        kind: &FrameKind,
        progress: &Progress,
    ) -> Option<Choice>
        requires { AllPairs (λ e f. is_key_before e.key f.key ≡ true) rows.now }
        ensures { result
            ≡ choice_in subject.now (map row_view rows.now) self.now kind.now progress.now }
    {
        let other = choice_at(
            rows,
            &self.request,
            kind,
            &progress.exchange,
            progress.remark,
        )
        .or(self.phases.choice(kind, progress))
        .or(self.errors.choice(subject, kind, progress));
        timeout_choice(&subject.limits, self.resumed, kind, &progress.exchange).or(other)
    }

    // what is known after a frame
    #[tactic(auto, unfolding(crate::specs::Choosings::taken))]
    fn note(
        &mut self,
        subject: &Subject,
        rows: &[EntryRow<'_>],
        kind: &FrameKind,
        progress: &Progress,
    )
        requires { AllPairs (λ e f. is_key_before e.key f.key ≡ true) rows.now }
        ensures { self.new
            ≡ taken subject.now (map row_view rows.now) self.old kind.now progress.now }
    {
        self.request = request_with(self.request, kind, &progress.exchange);
        self.phases.take(subject, rows, kind, progress);
        self.errors.take(subject, rows, kind, progress);
        self.resumed = resumed_with(self.resumed, kind, &progress.exchange);
    }

    /// Takes a frame by what it is to the device, and what the recording shows with it. Returns
    /// what the device chose; `rows` are the data sheet's entries, in increasing key.
    pub fn take(
        &mut self,
        subject: &Subject,
        rows: &[EntryRow<'_>],
        kind: &FrameKind,
        progress: &Progress,
    ) -> Option<Choice>
        requires { AllPairs (λ e f. is_key_before e.key f.key ≡ true) rows.now }
        ensures choice { result
            ≡ chosen_at subject.now (map row_view rows.now) self.old kind.now progress.now }
        ensures next { self.new
            ≡ choosing_with subject.now (map row_view rows.now) self.old kind.now progress.now }
    {
        self.begin(progress);
        let choice = self.choice_in(subject, rows, kind, progress);
        self.note(subject, rows, kind, progress);
        choice
    }
}
