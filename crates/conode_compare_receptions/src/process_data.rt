//! What a data frame brings the entries that are held, where it may be an RPDO.

ghost use Rattle.std.specs.Prelude.{◌≡◌, true, map};
ghost use Rattle.std.specs.List.{AllPairs};
ghost use Rattle.co_sheet.specs.SheetViews.{row_view};
ghost use Rattle.co_value.specs.Keys.{is_key_before};
ghost use Rattle.conode_record.specs.Grammar.{IsIdentifier};
ghost use Rattle.conode_compare_receptions.specs.Receptions.{
  all_prompt,
  all_settled,
  brought,
  doubted,
  frame_received,
  is_apart,
  is_prompt,
  is_rpdo_settled,
  is_sure,
  is_tpdo,
  other_received,
  process_received,
  received_by,
  taken,
  with_any,
};

use crate::receptions::Receptions;
use co_frame::Frame;
use co_sheet::EntryRow;
use conode_compare_nmt::Subject;
use conode_compare_pdos::{Pdos, Rpdo, Rpdos, is_id};
use conode_compare_rules::Progress;
use conode_compare_transfers::is_past;
use conode_compare_values::{all_fit, is_restricted};
use conode_record::{Content, Identifier};

// whether a TPDO of the device has an identifier
fn is_tpdo(pdos: &Pdos, id: u16) -> bool
    ensures { result ≡ is_tpdo pdos.now id }
{
    is_id(pdos.first.parameters.id, id)
        || is_id(pdos.second.parameters.id, id)
        || is_id(pdos.third.parameters.id, id)
        || is_id(pdos.fourth.parameters.id, id)
}

// whether the tolerance is over since one of its parameters was written or read
fn is_rpdo_settled(tolerance: u32, changed: Option<u64>, free: u64) -> bool
    ensures { result ≡ is_rpdo_settled tolerance changed free }
{
    match changed {
        Some(changed) => is_past(changed, tolerance, free),
        None => true,
    }
}

// whether it is of all of them
fn all_settled(tolerance: u32, rpdos: &Rpdos, free: u64) -> bool
    ensures { result ≡ all_settled tolerance rpdos.now free }
{
    is_rpdo_settled(tolerance, rpdos.first.changed, free)
        && is_rpdo_settled(tolerance, rpdos.second.changed, free)
        && is_rpdo_settled(tolerance, rpdos.third.changed, free)
        && is_rpdo_settled(tolerance, rpdos.fourth.changed, free)
}

// whether what an RPDO receives takes effect at once, by its parameters or by those before
fn is_prompt(tolerance: u32, free: u64, rpdo: &Rpdo) -> bool
    ensures { result ≡ is_prompt tolerance free rpdo.now }
{
    is_rpdo_settled(tolerance, rpdo.changed, free) || rpdo.is_immediate()
}

// whether what all of them receive does
fn all_prompt(tolerance: u32, rpdos: &Rpdos, free: u64) -> bool
    ensures { result ≡ all_prompt tolerance rpdos.now free }
{
    is_prompt(tolerance, free, &rpdos.first)
        && is_prompt(tolerance, free, &rpdos.second)
        && is_prompt(tolerance, free, &rpdos.third)
        && is_prompt(tolerance, free, &rpdos.fourth)
}

impl Receptions {
    // whether what an RPDO writes with a frame is known
    #[tactic(auto, unfolding(crate::specs::Receptions::is_sure))]
    fn is_sure(&self, subject: &Subject, progress: &Progress, id: u16, rpdo: &Rpdo) -> bool
        ensures { result ≡ is_sure subject.now self.now progress.now id rpdo.now }
    {
        self.followed
            && !self.writing
            && rpdo.cob_id.is_some()
            && rpdo.is_immediate()
            && all_settled(subject.limits.tolerance, &self.rpdos, progress.free)
            && progress.takes_rpdos(subject)
            && !self.others.may_use(id)
    }

    // A frame came that may be an RPDO.
    fn doubt(&mut self, subject: &Subject, progress: &Progress, micros: u64, id: u16)
        ensures { self.new ≡ doubted subject.now self.old progress.now micros id }
    {
        self.writes.forget_values();
        self.writes.written = progress.written;
        self.writes.written.forget_mapped(&subject.held);
        self.followed = self.followed
            && self.rpdos.all_at_once(id)
            && all_prompt(subject.limits.tolerance, &self.rpdos, progress.free);
        self.touched = Some(micros);
    }

    // A frame of an RPDO brings the entries what it has.
    fn bring(&mut self, subject: &Subject, micros: u64, frame: &Frame, rpdo: &Rpdo)
        ensures { self.new
            ≡ brought subject.now self.old micros frame.now.id rpdo.now frame.now.bytes }
    {
        let (rpdos, id) = (self.rpdos, frame.id());
        self.writes
            .receive(&subject.held, &rpdos, id, rpdo, frame.bytes(), micros);
        self.touched = Some(micros);
    }

    // A frame of an RPDO came that maps so many bytes.
    fn receive(
        &mut self,
        subject: &Subject,
        rows: &[EntryRow<'_>],
        progress: &Progress,
        micros: u64,
        frame: &Frame,
        rpdo: &Rpdo,
        mapped: u8,
    )
        requires { AllPairs (λ e f. is_key_before e.key f.key ≡ true) rows.now }
        ensures { self.new ≡ taken subject.now (map row_view rows.now) self.old progress.now micros
            frame.now.id rpdo.now frame.now.bytes mapped }
    {
        if frame.bytes().len() < mapped as usize {
            return;
        }
        if all_fit(rows, rpdo, frame.bytes()) {
            self.bring(subject, micros, frame, rpdo);
        } else {
            self.doubt(subject, progress, micros, frame.id());
        }
    }

    // A frame came that may be of one RPDO alone.
    fn take_receiver(
        &mut self,
        subject: &Subject,
        rows: &[EntryRow<'_>],
        progress: &Progress,
        micros: u64,
        frame: &Frame,
        rpdo: &Option<Rpdo>,
    )
        requires { AllPairs (λ e f. is_key_before e.key f.key ≡ true) rows.now }
        ensures { self.new ≡ received_by subject.now (map row_view rows.now) self.old progress.now
            micros frame.now.id frame.now.bytes rpdo.now }
    {
        if let Some(rpdo) = rpdo {
            if let Some(mapped) = rpdo.mapped_length() {
                if self.is_sure(subject, progress, frame.id(), rpdo) {
                    self.receive(subject, rows, progress, micros, frame, rpdo, mapped);
                    return;
                }
            }
        }
        self.doubt(subject, progress, micros, frame.id());
    }

    // whether none of its RPDOs has an identifier, nor had it within the tolerance
    fn is_apart(&self, subject: &Subject, progress: &Progress, id: u16) -> bool
        ensures { result ≡ is_apart subject.now self.now progress.now id }
    {
        is_restricted(id)
            || (!self.rpdos.any_receives(id)
                && all_settled(subject.limits.tolerance, &self.rpdos, progress.free))
    }

    // A data frame came, and RPDOs aren't followed.
    fn take_any(&mut self, subject: &Subject, progress: &Progress, micros: u64, id: u16)
        ensures { self.new ≡ with_any subject.now self.old progress.now micros id }
    {
        if is_restricted(id) || is_tpdo(progress.pdos(), id) {
            self.set_written(progress.written);
        } else {
            self.doubt(subject, progress, micros, id);
        }
    }

    // A data frame came that may be an RPDO.
    #[tactic(auto, unfolding(crate::specs::Receptions::process_received))]
    fn take_process(
        &mut self,
        subject: &Subject,
        rows: &[EntryRow<'_>],
        progress: &Progress,
        micros: u64,
        frame: &Frame,
    )
        requires { AllPairs (λ e f. is_key_before e.key f.key ≡ true) rows.now }
        ensures { self.new ≡ process_received
            subject.now (map row_view rows.now) self.old progress.now micros frame.now }
    {
        if !self.followed {
            self.take_any(subject, progress, micros, frame.id());
            return;
        }
        if self.is_apart(subject, progress, frame.id()) {
            return;
        }
        let rpdo = self.rpdos.receiver(frame.id());
        self.take_receiver(subject, rows, progress, micros, frame, &rpdo);
    }

    // A frame with an identifier of 29 bits came, or one of CAN FD.
    fn take_other(&mut self, progress: &Progress, micros: u64)
        ensures { self.new ≡ other_received self.old progress.now micros }
    {
        self.writes.forget_values();
        self.writes.written = progress.written;
        self.followed = false;
        self.touched = Some(micros);
    }

    // Another frame came.
    pub(crate) fn take_frame(
        &mut self,
        subject: &Subject,
        rows: &[EntryRow<'_>],
        progress: &Progress,
        micros: u64,
        id: Identifier,
        content: &Content<'_>,
    )
        requires rows { AllPairs (λ e f. is_key_before e.key f.key ≡ true) rows.now }
        requires id { IsIdentifier id }
        ensures { self.new ≡ frame_received
            subject.now (map row_view rows.now) self.old progress.now micros id content.now }
    {
        match (id, content) {
            (Identifier::Base(id), Content::Data(bytes)) => {
                let frame = Frame::packed(id, bytes);
                self.take_process(subject, rows, progress, micros, &frame);
            }
            _ => self.take_other(progress, micros),
        }
    }
}
