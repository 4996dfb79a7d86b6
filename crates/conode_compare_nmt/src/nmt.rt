//! What a recording shows of the NMT state of a device, as commands and its own frames have it
//! (CiA 301, 7.3.2.2).

ghost use Rattle.std.specs.Prelude.{◌≡◌};
ghost use Rattle.conode_compare_nmt.specs.States.{
  after_boot_up,
  after_command,
  after_control,
  after_other,
  at_begin,
  awaits_boot_up,
  boot_finding,
  boots_after_loss,
  boots_known,
  control_finding,
  due_booted,
  is_over,
  is_settled,
  is_steady,
  judged_state,
  leaving_booted,
  nothing_commanded,
  restart_remark,
  second_boot_up,
  several_left,
  shows_state,
  state_finding,
  with_state,
};

use crate::finding::{Finding, NmtState, Remark};
use crate::leaving::{Leaving, is_running};
use crate::limits::{Limits, Subject};
use crate::repeated::Odd;
use crate::states::{
    freer, goes_to, is_guarded_state, is_reset, is_state, is_turn, is_up, is_wrong, same_state,
    state_after, state_of,
};
use co_frame::NmtService;
use conode_compare_transfers::is_past;

// two boot-ups within so many ms are those of two devices
const SECOND_BOOT_UP: u32 = 1000;

/// An NMT command with its stamp in microseconds.
#[derive(Clone, Copy)]
pub struct Commanded {
    pub service: NmtService,
    pub micros: u64,
}

/// What a recording shows of a device's NMT state; its times are stamps in microseconds.
#[derive(Clone, Copy)]
pub struct Nmt {
    /// As commands, boot-ups and heartbeats show it.
    pub state: NmtState,
    /// The newest command.
    pub commanded: Option<Commanded>,
    /// The stamp of the newest reset command; or since when the recording began anew: one may have
    /// come before that.
    pub reset: Option<u64>,
    /// Whether more than one boot-up may come, since a reset was commanded before the boot-up of
    /// another one, or may have been.
    pub several: bool,
    /// The stamp of its newest boot-up, where no heartbeat, answer or EMCY came since, no reset was
    /// commanded, and no other boot-up may come.
    pub booted: Option<u64>,
    /// The state that the newest command leads to, until a heartbeat shows it: the device may reach
    /// it at any time. Where a command may have come before the recording, operational: so each.
    pub due: NmtState,
    /// The stamp of the first frame after a heartbeat that only the state that is due allows, and
    /// not the one that the heartbeat showed: the device has followed the command.
    pub followed: Option<u64>,
    /// The stamp of the newest heartbeat that showed that it left operational or stopped, or entered
    /// stopped.
    pub changed: Option<u64>,
    /// The state out of which it went last to one that it can't have reached by itself, since the
    /// boot-up and the newest command; unknown where it hasn't.
    pub strayed: NmtState,
    /// Whether its heartbeats are those of two devices: then no state is known until a boot-up or a
    /// command.
    pub mixed: bool,
    /// What was wrong about its newest frame of error control, other than the state.
    pub odd: Option<Odd>,
    /// Whether it has left stopped since a command.
    pub leaving: Leaving,
}

impl Nmt {
    /// Nothing is known, and no command is awaited.
    pub fn new() -> Nmt
        ensures { result ≡ nothing_commanded }
    {
        Nmt {
            state: NmtState::Unknown,
            commanded: None,
            reset: None,
            several: false,
            booted: None,
            due: NmtState::Unknown,
            followed: None,
            changed: None,
            strayed: NmtState::Unknown,
            mixed: false,
            odd: None,
            leaving: Leaving::Nothing,
        }
    }

    /// A recording begins; `anew`: since which stamp, in microseconds, it begins anew, where that may
    /// have been a reset. A device may follow a command that came before.
    pub fn at_begin(anew: Option<u64>) -> Nmt
        ensures { result ≡ at_begin anew }
    {
        Nmt {
            state: NmtState::Unknown,
            commanded: None,
            reset: anew,
            several: anew.is_some(),
            booted: None,
            due: NmtState::Operational,
            followed: None,
            changed: None,
            strayed: NmtState::Unknown,
            mixed: false,
            odd: None,
            leaving: Leaving::Awaited,
        }
    }

    /// The state by which frames are judged: CiA 301 sets no time for a transition, so before and
    /// after that which the newest command leads to either state is right.
    pub fn judged_state(&self) -> NmtState
        ensures { result ≡ judged_state self.now }
    {
        freer(self.state, self.due)
    }

    /// Whether the tolerance, in ms, is over at a stamp in microseconds since a heartbeat showed that
    /// it left operational or stopped, or entered stopped.
    pub fn is_steady(&self, limits: &Limits, micros: u64) -> bool
        ensures { result ≡ is_steady limits.now self.now micros }
    {
        match self.changed {
            Some(changed) => is_past(changed, limits.tolerance, micros),
            None => true,
        }
    }

    /// Whether the tolerance, in ms, is over at a stamp in microseconds since the recording began, at
    /// `started`, and since the newest command.
    #[tactic(auto, unfolding(crate::specs::States::is_settled))]
    pub fn is_settled(&self, limits: &Limits, started: u64, micros: u64) -> bool
        ensures { result ≡ is_settled limits.now started self.now.commanded micros }
    {
        if !is_past(started, limits.tolerance, micros) {
            return false;
        }
        match self.commanded {
            Some(command) => is_past(command.micros, limits.tolerance, micros),
            None => true,
        }
    }

    // whether the boot-up that a reset command asks for is overdue
    #[tactic(auto, unfolding(crate::specs::States::awaits_boot_up))]
    fn awaits_boot_up(&self, limits: &Limits, micros: u64) -> Option<u64>
        ensures { result ≡ awaits_boot_up limits.now self.now micros }
    {
        let NmtState::Initialising = self.state else {
            return None;
        };
        match self.reset {
            Some(reset) if is_past(reset, limits.boot, micros) => Some(micros.saturating_sub(
                reset,
            )),
            _ => None,
        }
    }

    /// `boot-missing`: the difference of a frame of the device that is no boot-up, where one is
    /// overdue at its stamp in microseconds (CiA 301, 7.2.8.3.3).
    #[tactic(auto, unfolding(crate::specs::States::boot_finding))]
    pub fn boot_finding(&self, limits: &Limits, micros: u64) -> Option<Finding>
        ensures { result ≡ boot_finding limits.now self.now micros }
    {
        match self.awaits_boot_up(limits, micros) {
            Some(waited) => Some(Finding::BootMissing(waited)),
            None => None,
        }
    }

    /// `second-sender`: the difference of a boot-up at a stamp in microseconds (CiA 301, 7.2.8.3.3).
    #[tactic(auto, unfolding(crate::specs::States::second_boot_up))]
    pub fn second_boot_up(&self, micros: u64) -> Option<Finding>
        ensures { result ≡ second_boot_up self.now.booted micros }
    {
        match self.booted {
            // (two with one stamp may be far apart)
            Some(booted) if micros <= booted || is_past(booted, SECOND_BOOT_UP, micros) => None,
            Some(booted) => Some(Finding::SecondBootUp(micros.saturating_sub(booted))),
            None => None,
        }
    }

    /// What is remarked of a boot-up at a stamp in microseconds, where the device was up and no reset
    /// was commanded since (CiA 301, 7.2.8.3.3).
    #[tactic(auto, unfolding(crate::specs::States::restart_remark))]
    pub fn restart_remark(&self, limits: &Limits, micros: u64) -> Option<Remark>
        ensures { result ≡ restart_remark limits.now self.now micros }
    {
        if !is_up(self.state)
            || self.several_left(limits, micros)
            || self.second_boot_up(micros).is_some()
        {
            None
        } else {
            Some(Remark::Restarted)
        }
    }

    // the difference of a heartbeat's byte, once it is settled
    #[tactic(auto, unfolding(crate::specs::States::state_finding))]
    fn state_finding(&self, starts_itself: bool, byte: u8) -> Option<Finding>
        ensures { result ≡ state_finding starts_itself (judged_state self.now) byte }
    {
        let state = self.judged_state();
        if is_state(byte) {
            let shown = state_of(byte);
            return if is_wrong(starts_itself, state, shown) {
                Some(Finding::WrongState(shown, state))
            } else {
                None
            };
        }
        match state {
            NmtState::Initialising => None,
            _ => Some(Finding::NoState(byte)),
        }
    }

    /// The difference of a heartbeat's byte (CiA 301, 7.2.8.3.2), by stamps in microseconds: the
    /// recording began at `started`, and the bus was free last at `free`. `early`: it comes sooner than
    /// its period. Once node guarding was seen (`guarded`), only that it is a state is judged.
    #[tactic(auto, unfolding(crate::specs::States::control_finding))]
    pub fn control_finding(
        &self,
        subject: &Subject,
        started: u64,
        guarded: bool,
        early: bool,
        free: u64,
        byte: u8,
    ) -> Option<Finding>
        ensures { result ≡ control_finding subject.now started guarded early self.now free byte }
    {
        if self.strays_again(subject, started, guarded, early, free, byte) {
            return Some(Finding::TwoStates(state_of(byte), self.judged_state()));
        }
        if guarded && is_state(byte)
            || is_guarded_state(byte)
            || !self.is_settled(&subject.limits, started, free)
        {
            return None;
        }
        self.said_of(self.state_finding(subject.facts.starts_itself, byte))
    }

    // whether the state after a boot-up is pre-operational
    fn boots_known(&self, limits: &Limits, micros: u64) -> bool
        ensures { result ≡ boots_known limits.now self.now.commanded micros }
    {
        match self.commanded {
            Some(command) => {
                is_reset(command.service) || is_past(command.micros, limits.boot, micros)
            }
            None => true,
        }
    }

    // whether the recording began anew shortly before a boot-up, and no command came since
    fn boots_after_loss(&self, limits: &Limits, micros: u64) -> bool
        ensures { result ≡ boots_after_loss limits.now self.now micros }
    {
        match (self.commanded, self.reset) {
            (None, Some(anew)) => !is_past(anew, limits.boot, micros),
            _ => false,
        }
    }

    // the state that may be due after a boot-up
    fn due_booted(&self, limits: &Limits, micros: u64) -> NmtState
        ensures { result ≡ due_booted limits.now self.now micros }
    {
        if self.boots_after_loss(limits, micros) {
            return NmtState::Operational;
        }
        if self.boots_known(limits, micros) {
            NmtState::Unknown
        } else {
            self.due
        }
    }

    // whether it may be stopped after a boot-up
    fn leaving_booted(&self, limits: &Limits, micros: u64) -> Leaving
        ensures { result ≡ leaving_booted limits.now self.now micros }
    {
        if self.boots_known(limits, micros) && !self.boots_after_loss(limits, micros) {
            Leaving::Nothing
        } else {
            Leaving::Awaited
        }
    }

    /// A command came (CiA 301, 7.2.8.3.1) at a stamp in microseconds; `own`: the device may have sent
    /// it itself, as the NMT master, and needn't follow it.
    #[tactic(auto, unfolding(crate::specs::States::after_command))]
    pub fn after_command(self, service: NmtService, own: bool, micros: u64) -> Nmt
        ensures { result ≡ after_command self service own micros }
    {
        Nmt {
            state: state_after(service, own, self.state),
            commanded: Some(Commanded { service, micros }),
            reset: if is_reset(service) {
                Some(micros)
            } else {
                self.reset
            },
            several: self.several || is_reset(service) && !is_up(self.state),
            booted: if is_reset(service) { None } else { self.booted },
            due: goes_to(service),
            followed: None,
            changed: self.changed,
            strayed: NmtState::Unknown,
            mixed: false,
            odd: self.odd,
            leaving: self.leaving.after(self.state),
        }
    }

    // a boot-up came
    #[tactic(auto, unfolding(crate::specs::States::after_boot_up))]
    fn after_boot_up(self, limits: &Limits, micros: u64) -> Nmt
        ensures { result ≡ after_boot_up limits.now self micros }
    {
        let several = self.several_left(limits, micros);
        Nmt {
            state: if self.boots_known(limits, micros) {
                NmtState::PreOperational
            } else {
                NmtState::Unknown
            },
            commanded: self.commanded,
            reset: self.reset,
            several,
            booted: if several { None } else { Some(micros) },
            due: self.due_booted(limits, micros),
            followed: None,
            changed: None,
            strayed: NmtState::Unknown,
            mixed: false,
            odd: None,
            leaving: self.leaving_booted(limits, micros),
        }
    }

    // whether more than one boot-up may still come
    fn several_left(&self, limits: &Limits, micros: u64) -> bool
        ensures { result ≡ several_left limits.now self.now micros }
    {
        match self.reset {
            Some(reset) => self.several && !is_past(reset, limits.boot, micros),
            None => false,
        }
    }

    /// A heartbeat, an answer or another frame of error control came at a stamp in microseconds: where
    /// the boot-up is overdue, the state is unknown from then on.
    #[tactic(auto, unfolding(crate::specs::States::after_other))]
    pub fn after_other(self, limits: &Limits, micros: u64) -> Nmt
        ensures { result ≡ after_other limits.now self micros }
    {
        let overdue = self.awaits_boot_up(limits, micros).is_some();
        let several = self.several_left(limits, micros);
        Nmt {
            state: if overdue {
                NmtState::Unknown
            } else {
                self.state
            },
            commanded: self.commanded,
            reset: self.reset,
            several,
            booted: None,
            due: self.due,
            followed: self.followed,
            changed: self.changed,
            strayed: self.strayed,
            mixed: self.mixed,
            odd: self.odd,
            leaving: self.leaving,
        }
    }

    // a heartbeat shows this state
    fn with_state(self, shown: NmtState, micros: u64) -> Nmt
        ensures { result ≡ with_state self shown micros }
    {
        Nmt {
            state: shown,
            commanded: self.commanded,
            reset: self.reset,
            several: self.several,
            booted: self.booted,
            due: if same_state(shown, self.due) {
                NmtState::Unknown
            } else {
                self.due
            },
            followed: if same_state(shown, self.state) {
                self.followed
            } else {
                None
            },
            changed: if is_turn(self.state, shown) {
                Some(micros)
            } else {
                self.changed
            },
            strayed: self.strayed,
            mixed: self.mixed,
            odd: self.odd,
            leaving: self.leaving.shown(is_running(shown), micros),
        }
    }

    // whether a device has followed by now each command that came before the recording
    fn is_over(&self, limits: &Limits, started: u64, free: u64) -> bool
        ensures { result ≡ is_over limits.now started self.now.commanded free }
    {
        self.commanded.is_none() && is_past(started, limits.boot, free)
    }

    // whether a heartbeat shows the state: it was settled when the bus was free last, no boot-up is
    // awaited, and not two devices send
    fn shows_state(&self, limits: &Limits, started: u64, free: u64, byte: u8) -> bool
        ensures { result ≡ shows_state limits.now started self.now free byte }
    {
        self.is_settled(limits, started, free)
            && is_state(byte)
            && !matches!(self.state, NmtState::Initialising)
            && !self.mixed
    }

    /// A byte of error control came (CiA 301, 7.2.8.3.2 and 7.2.8.3.3), by stamps in microseconds: the
    /// recording began at `started`, the bus was free last at `free`, and the frame came at `micros`.
    #[tactic(auto, unfolding(crate::specs::States::after_control))]
    pub fn after_control(
        self,
        limits: &Limits,
        started: u64,
        free: u64,
        micros: u64,
        byte: u8,
    ) -> Nmt
        ensures { result ≡ after_control limits.now started self free micros byte }
    {
        if byte == 0 {
            return self.after_boot_up(limits, micros);
        }
        let next = self.after_other(limits, micros);
        if !self.shows_state(limits, started, free, byte) {
            return next;
        }
        let shown = state_of(byte);
        let mut next = next.with_state(shown, micros);
        if self.is_back(limits, free, shown) {
            next.leave_due(micros);
        }
        if self.is_over(limits, started, free) {
            next.due = NmtState::Unknown;
        }
        next
    }
}
