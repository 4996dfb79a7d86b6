//! EMCY messages (CiA 301, 7.2.7).

ghost use Rattle.std.specs.Prelude.{◌≡◌};
ghost use Rattle.conode_compare_rules.specs.EmergencyRules.{
  emergency_finding,
  fits_register,
  gap_finding,
  has_register,
  is_inhibited,
  inhibit_finding,
  is_in_force,
  length_finding,
  least_gap,
  may_wait,
  unless_uncounted,
  was_in_force,
  came_just_now,
  emergency_difference,
  has_just_booted,
  is_uncounted,
  may_be_restarted,
  may_have_waited,
};

use crate::progress::Progress;
use conode_compare_nmt::{Entries, Finding, Limits, NmtState, Subject, drift_of};
use conode_compare_transfers::{is_past, micros_of};

// The error register has bit 0 wherever another bit is set, and while the code isn't one of "error
// reset or no error".
fn has_register(code: u16, register: u8) -> bool
    ensures { result ≡ has_register code register }
{
    register % 2 == 1 || (register == 0 && code < 0x100)
}

// whether the error register of an EMCY is right: one that waited has that of the moment at which
// it is sent
fn fits_register(waits: bool, code: u16, register: u8) -> bool
    ensures { result ≡ fits_register waits code register }
{
    has_register(code, register) || (register == 0 && waits)
}

// how many microseconds two EMCY are apart at least
fn least_gap(limits: &Limits, inhibit: u16) -> u64
    ensures { result ≡ least_gap limits.now inhibit }
{
    (inhibit as u64 * 100)
        .saturating_sub(micros_of(limits.tolerance))
        .saturating_sub(drift_of(limits, inhibit / 10))
}

fn gap_finding(limits: &Limits, inhibit: u16, passed: u64) -> Option<Finding>
    ensures { result ≡ gap_finding limits.now inhibit passed }
{
    if passed < least_gap(limits, inhibit) {
        Some(Finding::EmergencyInhibit(passed, inhibit))
    } else {
        None
    }
}

// whether the inhibit time was in force when an EMCY came
fn is_in_force(limits: &Limits, shown: Option<u64>, last: u64) -> bool
    ensures { result ≡ is_in_force limits.now shown last }
{
    match shown {
        Some(shown) => is_past(shown, limits.tolerance, last),
        None => true,
    }
}

// whether it was when the last EMCY came; where none is known, unless a transfer showed it
fn was_in_force(limits: &Limits, shown: Option<u64>, last: Option<u64>) -> bool
    ensures { result ≡ was_in_force limits.now shown last }
{
    match last {
        Some(last) => is_in_force(limits, shown, last),
        None => shown.is_none(),
    }
}

// whether an EMCY may have waited for the inhibit time: it isn't known to be 0, or wasn't when the
// last one came
fn may_wait(limits: &Limits, entries: &Entries, last: Option<u64>) -> bool
    ensures { result ≡ may_wait limits.now entries.now last }
{
    match entries.inhibit {
        Some(0) => !was_in_force(limits, entries.inhibit_shown, last),
        _ => true,
    }
}

// the time since the last one, where that is within the inhibit time
#[tactic(auto, unfolding(crate::specs::EmergencyRules::inhibit_finding))]
fn inhibit_finding(
    limits: &Limits,
    entries: &Entries,
    last: Option<u64>,
    micros: u64,
) -> Option<Finding>
    ensures { result ≡ inhibit_finding limits.now entries.now last micros }
{
    let last = last?;
    match entries.inhibit {
        Some(inhibit) if is_in_force(limits, entries.inhibit_shown, last) => {
            gap_finding(limits, inhibit, micros.saturating_sub(last))
        }
        _ => None,
    }
}

// The difference of an EMCY of eight bytes: of the NMT state, once that is settled, else of the
// error register, else of the inhibit time.
#[tactic(auto, unfolding(crate::specs::EmergencyRules::emergency_finding))]
fn emergency_finding(
    limits: &Limits,
    entries: &Entries,
    state: NmtState,
    settled: bool,
    waits: bool,
    last: Option<u64>,
    micros: u64,
    code: u16,
    register: u8,
) -> Option<Finding>
    ensures { result
        ≡ emergency_finding limits.now entries.now state settled waits last micros code register }
{
    if !entries.emergencies || matches!(state, NmtState::Initialising) {
        return None;
    }
    if settled && matches!(state, NmtState::Stopped) {
        return Some(Finding::EmergencyStopped);
    }
    if !fits_register(waits || may_wait(limits, entries, last), code, register) {
        return Some(Finding::EmergencyRegister(code, register));
    }
    inhibit_finding(limits, entries, last, micros)
}

// the difference of an EMCY, where perhaps no inhibit time counts from the last one
fn unless_uncounted(uncounted: bool, finding: Option<Finding>) -> Option<Finding>
    ensures { result ≡ unless_uncounted uncounted finding }
{
    if matches!(finding, Some(Finding::EmergencyInhibit(_, _))) && uncounted {
        None
    } else {
        finding
    }
}

/// The difference of an EMCY of another number of bytes.
pub(crate) fn length_finding(entries: &Entries, length: u8) -> Option<Finding>
    ensures { result ≡ length_finding entries.now length }
{
    if entries.emergencies {
        Some(Finding::EmergencyLength(length))
    } else {
        None
    }
}

// a device isn't switched off and on within so many ms
const RESTART: u32 = 1000;

// whether a frame of the device came so shortly before that it runs since
fn came_just_now(last: Option<u64>, micros: u64) -> bool
    ensures { result ≡ came_just_now last micros }
{
    match last {
        Some(last) => !is_past(last, RESTART, micros),
        None => false,
    }
}

impl Progress {
    // whether the device may have been switched off and on since its newest EMCY
    fn may_be_restarted(&self, subject: &Subject, micros: u64) -> bool
        ensures { result ≡ may_be_restarted subject.now self.now micros }
    {
        self.is_overdue(subject)
            || !(came_just_now(self.emergency, micros)
                || came_just_now(self.heartbeats.since, micros))
    }

    // whether no inhibit time counts from the newest EMCY: the device may have been switched off and on
    // since, or that may have waited until it could send again
    fn is_uncounted(&self, subject: &Subject, micros: u64) -> bool
        ensures { result ≡ is_uncounted subject.now self.now micros }
    {
        if self.may_be_restarted(subject, micros) {
            return true;
        }
        match self.emergency {
            Some(last) => self.was_held_up(subject, last),
            None => false,
        }
    }

    // whether the tolerance since the boot-up wasn't over when the bus was free last
    fn has_just_booted(&self, subject: &Subject) -> bool
        ensures { result ≡ has_just_booted subject.now self.now }
    {
        match self.nmt.booted {
            Some(booted) => !is_past(booted, subject.limits.tolerance, self.free),
            None => false,
        }
    }

    // whether an EMCY may have waited for the end of stopped, for the boot-up, or for the bus, also one
    // that couldn't be used
    fn may_have_waited(&self, subject: &Subject, micros: u64) -> bool
        ensures { result ≡ may_have_waited subject.now self.now micros }
    {
        !self.steady_when_free(subject)
            || self.free < micros
            || self.nmt.leaving.was_stopped(micros)
            || self.has_just_booted(subject)
            || self.was_held_up(subject, self.free)
    }

    /// The difference of an EMCY of eight bytes.
    pub(crate) fn emergency_difference(
        &self,
        subject: &Subject,
        micros: u64,
        code: u16,
        register: u8,
    ) -> Option<Finding>
        ensures { result ≡ emergency_difference subject.now self.now micros code register }
    {
        let finding = emergency_finding(
            &subject.limits,
            &self.entries,
            self.nmt.judged_state(),
            self.steady_when_free(subject),
            self.may_have_waited(subject, micros),
            self.emergency,
            micros,
            code,
            register,
        );
        unless_uncounted(self.is_uncounted(subject, micros), finding)
    }
}
