//! Heartbeats that are late, and those that come early (CiA 301, 7.2.8.3.2).

ghost use Rattle.std.specs.Prelude.{◌≡◌, true};
ghost use Rattle.conode_compare_nmt.specs.Heartbeats.{
  after_byte,
  after_transfer,
  allowance,
  awaited_after,
  disabled_after,
  early_remark,
  late_finding,
  no_heartbeat,
  off_finding,
  overdue_by,
  overdue_with,
  comes_again,
  comes_late,
  is_as_slow,
  is_gap,
  is_late_again,
  is_missing,
  is_of_row,
  is_off_again,
  is_shown,
  is_zero,
  late_since,
  leeway,
  longer,
  missing_after,
  row_after,
  shown_after,
  slow_after,
  stays_in_row,
  time_taken,
  with_shown,
  follows_closely,
};

use crate::entries::{Entries, shown_period};
use crate::finding::{Finding, Remark};
use crate::limits::{Limits, drift_of, most_passed};
use crate::states::is_guarded_state;
use conode_compare_transfers::{is_past, micros_of};
use conode_explain_transfers::{Direction, Ended};

/// The longest period, in ms: 1017:00 has 16 bits (CiA 301, 7.5.2.20).
pub const LONGEST_PERIOD: u16 = 65535;

/// From what on the next heartbeat is awaited.
#[derive(Clone, Copy)]
pub enum Since {
    /// The last one, or another frame of error control.
    Heartbeat,
    /// The boot-up.
    BootUp,
    /// The end of a transfer of 1017:00.
    Transfer,
    /// The last heartbeat, after such a transfer showed that 1017:00 has 0: that of a period which
    /// ran before has come.
    Disabled,
    /// The last heartbeat, where `heartbeat-off` was found since such a transfer.
    Off,
}

/// What a recording shows of a device's heartbeats: stamps in microseconds, periods in ms.
#[derive(Clone, Copy)]
pub struct Heartbeats {
    /// Whether its node guarding was asked for.
    pub guarded: bool,
    /// Since when the next one is awaited.
    pub since: Option<u64>,
    /// What came then.
    pub awaited: Since,
    /// When the bus was free before the newest one or the boot-up, or 1017:00 was asked to be
    /// written: from then on the device counts its period, or from later.
    pub sent: Option<u64>,
    /// When an answer, an EMCY or a TPDO showed first that it sends while the next one is late; where
    /// that is after `since`.
    pub shown: Option<u64>,
    /// The longest time, in microseconds, that one of the newest heartbeats took, which all came
    /// late; where the newest one did.
    pub slow: Option<u64>,
    /// The longest period that may still run, though 1017:00 was written since; or may have been,
    /// before the recording.
    pub former: Option<u16>,
    /// When the answer came since which what 1017:00 has is known again.
    pub answered: Option<u64>,
    /// What a client asked last to write to 1017:00, where it did so in one frame of two bytes.
    pub asked: Option<u16>,
}

/// After how many microseconds a heartbeat is late.
pub(crate) fn allowance(limits: &Limits, period: u16) -> u64
    ensures { result ≡ allowance limits.now period }
{
    micros_of(period as u32) + micros_of(limits.tolerance) + drift_of(limits, period)
}

// how many microseconds longer a heartbeat may take than a late one that is the same mistake
fn leeway(limits: &Limits, period: u16) -> u64
    ensures { result ≡ leeway limits.now period }
{
    micros_of(limits.tolerance) + drift_of(limits, period)
}

/// Whether nothing at all was recorded between two stamps, in microseconds, for longer than three
/// periods, in ms; where none is known, or no heartbeat is sent, for longer than an answer may take.
pub fn is_gap(limits: &Limits, period: Option<u16>, newest: u64, micros: u64) -> bool
    ensures { result ≡ is_gap limits.now period newest micros }
{
    match period {
        Some(period) if period > 0 => {
            micros.saturating_sub(newest) > 3 * micros_of(period as u32)
        }
        _ => is_past(newest, limits.answer, micros),
    }
}

// how long after another frame one may have waited for it, in microseconds
const FRAME_TIME: u64 = 1500;

/// Whether a frame may have waited for the one before it, by their stamps in microseconds.
pub fn follows_closely(newest: u64, micros: u64) -> bool
    ensures { result ≡ follows_closely newest micros }
{
    micros.saturating_sub(newest) <= FRAME_TIME
}

// Whether a heartbeat goes on with the row of late ones before it: with that of one that took more
// than two periods, a pause, only where it takes about as long.
fn is_of_row(limits: &Limits, period: u16, slow: Option<u64>, taken: Option<u64>) -> bool
    ensures { result ≡ is_of_row limits.now period slow taken }
{
    match (slow, taken) {
        (Some(slow), Some(taken)) => {
            slow <= 2 * micros_of(period as u32)
                || slow.saturating_sub(taken) <= leeway(limits, period)
        }
        _ => true,
    }
}

// a heartbeat is late by so many microseconds since this came; 1017:00 has so many ms
fn late_since(awaited: Since, passed: u64, period: u16) -> Finding
    ensures { result ≡ late_since awaited (passed, period) }
{
    match awaited {
        Since::Heartbeat | Since::Disabled | Since::Off => Finding::HeartbeatLate(passed, period),
        Since::BootUp => Finding::LateAfterBootUp(passed, period),
        Since::Transfer => Finding::LateAfterTransfer(passed, period),
    }
}

// whether what 1017:00 has is known, and is 0
fn is_zero(period: Option<u16>) -> bool
    ensures { result ≡ is_zero period }
{
    match period {
        Some(period) => period == 0,
        None => false,
    }
}

// what came last, once a heartbeat comes where 1017:00 has 0; `former`: which period may run still,
// `off`: whether `heartbeat-off` is found
fn disabled_after(awaited: Since, former: Option<u16>, off: bool) -> Since
    ensures { result ≡ disabled_after awaited former off }
{
    match awaited {
        Since::Heartbeat | Since::BootUp => Since::Heartbeat,
        Since::Transfer if former.is_some() => Since::Transfer,
        Since::Disabled if off => Since::Off,
        Since::Transfer | Since::Disabled => Since::Disabled,
        Since::Off => Since::Off,
    }
}

// the longer one of two times
fn longer(slow: Option<u64>, taken: Option<u64>) -> Option<u64>
    ensures { result ≡ longer slow taken }
{
    match (slow, taken) {
        (Some(slow), Some(taken)) => Some(if slow < taken { taken } else { slow }),
        (Some(slow), None) => Some(slow),
        (None, taken) => taken,
    }
}

impl Heartbeats {
    /// No heartbeat came, and what was written to 1017:00 before isn't known.
    pub fn new() -> Heartbeats
        ensures { result ≡ no_heartbeat }
    {
        Heartbeats {
            guarded: false,
            since: None,
            awaited: Since::Heartbeat,
            sent: None,
            shown: None,
            slow: None,
            former: Some(LONGEST_PERIOD),
            answered: None,
            asked: None,
        }
    }

    /// A heartbeat came, or an answer of node guarding (CiA 301, 7.2.8.3.2), at `micros`; the bus was
    /// free last at `free`, both stamps in microseconds.
    pub fn after_control(self, free: u64, micros: u64, byte: u8) -> Heartbeats
        ensures { result ≡ after_byte self free micros byte }
    {
        Heartbeats {
            guarded: self.guarded || is_guarded_state(byte),
            since: Some(micros),
            awaited: Since::Heartbeat,
            sent: Some(free),
            shown: self.shown,
            slow: self.slow,
            former: self.former,
            answered: self.answered,
            asked: self.asked,
        }
    }

    /// A transfer may have ended at a stamp in microseconds: with one of 1017:00 the wait begins anew,
    /// and with a download to it the period.
    pub fn heard(self, ended: &Option<Ended>, micros: u64) -> Heartbeats
        ensures { result ≡ after_transfer self ended.now micros }
    {
        match ended {
            Some(ended) if shown_period(ended).is_some() => Heartbeats {
                guarded: self.guarded,
                since: Some(micros),
                awaited: Since::Transfer,
                sent: match ended.direction {
                    Direction::Download => Some(ended.begun),
                    Direction::Upload => self.sent,
                },
                shown: self.shown,
                slow: None,
                former: self.former,
                answered: self.answered,
                asked: self.asked,
            },
            _ => self,
        }
    }

    /// What is remarked of a heartbeat with this byte that comes early (CiA 301, 7.2.8.3.2), at a
    /// stamp in microseconds: sooner after the last one than its period, less the tolerance and by how
    /// much the clocks may differ. `earlier`: the last other stamp.
    #[tactic(auto, unfolding(crate::specs::Heartbeats::early_remark))]
    pub fn early_remark(
        &self,
        limits: &Limits,
        entries: &Entries,
        earlier: Option<u64>,
        micros: u64,
        byte: u8,
    ) -> Option<Remark>
        ensures { result
            ≡ early_remark limits.now entries.now.period self.now earlier micros byte }
    {
        let period = entries.period?;
        let sent = self.sent?;
        let most = most_passed(earlier, sent, micros)?;
        let least = micros_of(period as u32)
            .saturating_sub(micros_of(limits.tolerance))
            .saturating_sub(drift_of(limits, period));
        if self.guarded || is_guarded_state(byte) || most >= least {
            return None;
        }
        Some(Remark::EarlyHeartbeat(micros.saturating_sub(sent), period))
    }

    /// For how many microseconds the next heartbeat is awaited at `micros`, where that is too long by
    /// what 1017:00 has, and that, in ms. It counts when the bus was free last, at `free`.
    pub fn overdue_with(
        &self,
        limits: &Limits,
        entries: &Entries,
        free: u64,
        micros: u64,
    ) -> Option<(u64, u16)>
        ensures { result ≡ overdue_with limits.now entries.now.period self.now free micros }
    {
        let period = entries.period?;
        let since = self.since?;
        let waited = free.saturating_sub(since);
        if self.guarded || period == 0 || waited <= allowance(limits, period) {
            return None;
        }
        Some((micros.saturating_sub(since), period))
    }

    // how long it is awaited, where it is late by each period that may run
    #[tactic(auto, unfolding(crate::specs::Heartbeats::overdue_by))]
    fn overdue_by(
        &self,
        limits: &Limits,
        entries: &Entries,
        free: u64,
        micros: u64,
    ) -> Option<(u64, u16)>
        ensures { result ≡ overdue_by limits.now entries.now.period self.now free micros }
    {
        if self.runs_still(limits, free) {
            None
        } else {
            self.overdue_with(limits, entries, free, micros)
        }
    }

    // whether an answer, an EMCY or a TPDO showed that the device sends while the next heartbeat is
    // late
    fn is_shown(&self) -> bool
        ensures { result ≡ is_shown self.now.since self.now.shown }
    {
        match (self.since, self.shown) {
            (Some(since), Some(shown)) => since < shown,
            _ => false,
        }
    }

    /// An answer, an EMCY or a TPDO, at a stamp in microseconds, shows that the device sends while the
    /// next heartbeat is late: the first one since that is awaited counts.
    pub fn note_shown(&mut self, micros: u64)
        ensures { self.new ≡ with_shown self.old true micros }
    {
        if !self.is_shown() {
            self.shown = Some(micros);
        }
    }

    // whether so long has passed as until a late heartbeat, since a frame showed that one is late
    fn missing_after(&self, limits: &Limits, period: u16, free: u64) -> bool
        ensures { result ≡ missing_after limits.now period self.now.shown free }
    {
        match self.shown {
            Some(shown) => free.saturating_sub(shown) > allowance(limits, period),
            None => false,
        }
    }

    /// Whether the next heartbeat is missing: it hasn't come, and since an answer, an EMCY or a TPDO
    /// showed that the device sends, the bus was free once more after as long as until a late one,
    /// last at this stamp in microseconds.
    #[tactic(auto, unfolding(crate::specs::Heartbeats::is_missing))]
    pub fn is_missing(&self, limits: &Limits, entries: &Entries, free: u64) -> bool
        ensures { result ≡ is_missing limits.now entries.now.period self.now free }
    {
        match entries.period {
            Some(period) => self.is_shown() && self.missing_after(limits, period, free),
            None => false,
        }
    }

    /// `heartbeat-late`: the difference of a frame of the device that is no boot-up, at `micros`,
    /// where a heartbeat is late (CiA 301, 7.2.8.3.2): it was when the bus was free last, at `free`,
    /// both stamps in microseconds.
    #[tactic(auto, unfolding(crate::specs::Heartbeats::late_finding))]
    pub fn late_finding(
        &self,
        limits: &Limits,
        entries: &Entries,
        free: u64,
        micros: u64,
    ) -> Option<Finding>
        ensures { result ≡ late_finding limits.now entries.now.period self.now free micros }
    {
        match self.overdue_by(limits, entries, free, micros) {
            Some((passed, period)) => Some(late_since(self.awaited, passed, period)),
            None => None,
        }
    }

    // how long the next heartbeat takes, by when the bus was free
    fn time_taken(&self, free: u64) -> Option<u64>
        ensures { result ≡ time_taken self.now free }
    {
        match self.sent {
            Some(sent) => Some(free.saturating_sub(sent)),
            None => None,
        }
    }

    /// Whether the next heartbeat, where it is late, takes no longer so far than the last ones, which
    /// came late, too; the bus was free last at this stamp in microseconds.
    pub fn is_late_again(&self, limits: &Limits, entries: &Entries, free: u64) -> bool
        ensures { result ≡ is_late_again limits.now entries.now.period self.now free }
    {
        match (entries.period, self.slow, self.time_taken(free)) {
            (Some(period), Some(slow), Some(taken)) => {
                taken.saturating_sub(slow) <= leeway(limits, period)
            }
            _ => false,
        }
    }

    // whether it goes on with their row
    fn stays_in_row(&self, limits: &Limits, entries: &Entries, free: u64) -> bool
        ensures { result ≡ stays_in_row limits.now entries.now.period self.now free }
    {
        match entries.period {
            Some(period) => is_of_row(limits, period, self.slow, self.time_taken(free)),
            None => false,
        }
    }

    /// Whether a heartbeat that comes, where it is late, is the same mistake as the last ones, which
    /// came late, too; the bus was free last at this stamp in microseconds.
    pub fn comes_again(&self, limits: &Limits, entries: &Entries, free: u64) -> bool
        ensures { result ≡ comes_again limits.now entries.now.period self.now free }
    {
        self.is_late_again(limits, entries, free) && self.stays_in_row(limits, entries, free)
    }

    // the longest time of the row once a heartbeat comes late, with which it goes on or begins anew
    fn row_after(&self, limits: &Limits, entries: &Entries, free: u64) -> Option<u64>
        ensures { result ≡ row_after limits.now entries.now.period self.now free }
    {
        if entries.period.is_none() {
            return None;
        }
        let taken = self.time_taken(free);
        if self.stays_in_row(limits, entries, free) {
            longer(self.slow, taken)
        } else {
            taken
        }
    }

    /// The longest time, in microseconds, of the heartbeats that came late one after another, once one
    /// comes at `micros`; the bus was free last at `free`.
    pub fn slow_after(
        &self,
        limits: &Limits,
        entries: &Entries,
        free: u64,
        micros: u64,
    ) -> Option<u64>
        ensures { result ≡ slow_after limits.now entries.now.period self.now free micros }
    {
        if self.since.is_some() && self.overdue_by(limits, entries, free, micros).is_none() {
            return None;
        }
        self.row_after(limits, entries, free)
    }

    /// `heartbeat-off`: the difference of a heartbeat with this byte, where a transfer showed that
    /// 1017:00 has 0 (CiA 301, 7.5.2.20), and another one came since. `aside`: it may be sent at a
    /// change of the state.
    pub fn off_finding(&self, entries: &Entries, aside: bool, byte: u8) -> Option<Finding>
        ensures { result ≡ off_finding entries.now.period self.now aside byte }
    {
        if !is_zero(entries.period) || self.guarded || is_guarded_state(byte) || aside {
            return None;
        }
        match self.awaited {
            Since::Disabled => Some(Finding::HeartbeatOff),
            Since::Heartbeat | Since::BootUp | Since::Transfer | Since::Off => None,
        }
    }

    /// From what on the next heartbeat is awaited, once one comes: the period `former` may run still
    /// after it, `off`: `heartbeat-off` is found.
    pub fn awaited_after(&self, entries: &Entries, former: Option<u16>, off: bool) -> Since
        ensures { result ≡ awaited_after entries.now.period self.now.awaited former off }
    {
        if is_zero(entries.period) {
            disabled_after(self.awaited, former, off)
        } else {
            Since::Heartbeat
        }
    }

    /// Whether `heartbeat-off` was found, and no transfer has shown what 1017:00 has since.
    pub fn is_off_again(&self, entries: &Entries) -> bool
        ensures { result ≡ is_off_again entries.now.period self.now }
    {
        is_zero(entries.period) && matches!(self.awaited, Since::Off)
    }
}
