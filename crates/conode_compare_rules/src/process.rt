//! PDOs and SYNCs of a recording.

ghost use Rattle.std.specs.Prelude.{◌≡◌, true};
ghost use Rattle.conode_compare_rules.specs.Processes.{
  after_process,
  moment_at,
  process_findings,
  sighting_findings,
  unless_overdue,
};
ghost use Rattle.conode_compare_nmt.specs.EntriesInForce.{overwritten};
ghost use Rattle.conode_compare_pdos.specs.Followed.{unknown_pdos};

use crate::progress::Progress;
use crate::verdict::Findings;
use conode_compare_nmt::{Finding, NmtState, Subject, is_idle};
use conode_compare_pdos::{Moment, Pdos, Sighting};

// a TPDO isn't judged while a heartbeat is late
fn unless_overdue(overdue: bool, sighting: Option<Sighting>) -> Option<Sighting>
    ensures { result ≡ unless_overdue overdue sighting }
{
    match sighting {
        Some(seen) if overdue => Some(Sighting {
            number: seen.number,
            deviation: None,
            judged: false,
        }),
        sighting => sighting,
    }
}

// what is found at a PDO, where a heartbeat is late or isn't
fn sighting_findings(late: Option<Finding>, sighting: Option<Sighting>) -> Findings
    ensures { result ≡ sighting_findings late sighting }
{
    match sighting {
        Some(sighting) => {
            let frame = match sighting.deviation {
                Some(deviation) => Some(Finding::Pdo(sighting.number, deviation)),
                None => None,
            };
            Findings::of(None, late, None, frame, sighting.judged)
        }
        None => Findings::none(),
    }
}

impl Progress {
    // how a PDO is judged that comes now: by whether the tolerance was over when the bus was free
    #[tactic(auto, unfolding(crate::specs::Processes::moment_at))]
    fn moment_at(&self, subject: &Subject, micros: u64) -> Moment
        ensures { result ≡ moment_at subject.now self.now micros }
    {
        let steady = self.steady_when_free(subject);
        let is_known = !matches!(self.nmt.state, NmtState::Unknown | NmtState::Initialising);
        let is_idle = is_idle(subject.facts.starts_itself, self.nmt.judged_state());
        Moment {
            micros,
            free: self.free,
            tolerance: subject.limits.tolerance,
            drift: subject.limits.drift,
            idle: steady && is_idle,
            known: steady && is_known,
            commanded: Some(self.counts_since()),
        }
    }

    // what the client of another SDO channel may have written is unknown
    fn note_client(&mut self)
        ensures { self.new ≡ record self.old {
          entries = overwritten self.old.entries;
          pdos = unknown_pdos;
          other_client = true;
        } }
    {
        self.entries = self.entries.overwritten();
        self.pdos = Pdos::unknown();
        self.other_client = true;
    }

    /// A data frame that is none of the others comes: a SYNC, or a PDO. Returns what is found at
    /// it: by a TPDO a heartbeat may be missing. What an RPDO may have written to the entries that
    /// are held is unknown then, and what the client of another SDO channel may have written.
    #[tactic(auto, unfolding(crate::specs::Processes::process_findings, crate::specs::Processes::after_process))]
    pub(crate) fn take_process(
        &mut self,
        subject: &Subject,
        micros: u64,
        id: u16,
        length: u8,
    ) -> Findings
        ensures findings { result ≡ process_findings subject.now self.old micros id length }
        ensures progress { self.new ≡ after_process subject.now self.old micros id length }
    {
        let moment = self.moment_at(subject, micros);
        let sighting = unless_overdue(
            self.is_overdue(subject),
            self.pdos.sighting(&moment, id, length),
        );
        self.note_tpdo(subject, sighting.is_some(), micros);
        let late = self.notice_late(subject, sighting.is_some(), micros);
        if subject.facts.clients.may_send(id) {
            self.note_client();
        } else {
            self.pdos.frame(&moment, id, length);
        }
        if sighting.is_none() {
            self.written.take_process(&subject.held, id);
        }
        sighting_findings(late, sighting)
    }
}
