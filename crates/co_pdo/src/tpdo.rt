//! The countdowns of one TPDO.

ghost use Rattle.std.specs.Prelude.{◌≡◌, ℕ, ◌<◌, ◌≤◌, ◌&&◌, [], ◌∷◌};
ghost use Rattle.co_pdo.specs.declared.settings.Settings.{Settings};
ghost use Rattle.co_pdo.specs.Tpdos.{places_of, settings_of};
ghost use Rattle.co_pdo.specs.Log.{Log, Started, Happened};
ghost use Rattle.co_pdo.specs.Due.{NotDueFor, is_due};
ghost use Rattle.co_pdo.specs.Countdowns.{IsAfter, IsCurrent};
ghost use Rattle.co_pdo.specs.Schedules.{is_among, with_event_if};
ghost use Rattle.co_pdo.specs.Steps.{counts, counted, passes_over, wants, marked};

use crate::places::Places;
use crate::settings::{Settings, begins_count};
use co_dict::ObjectStore;
use co_profile::{PdoNumber, TransmissionType};

/// An occasion at which a TPDO may be due.
#[derive(Clone, Copy)]
pub enum Occasion {
    /// A SYNC: the synchronous counter overflow value then, 0 for none, and the counter of the
    /// SYNC, if it has one.
    Sync(u8, Option<u8>),
    /// A mapped entry changed, or the application requests the TPDO.
    Event,
    /// 1 ms elapsed.
    Tick,
}

/// Which part of a TPDO is started.
#[derive(Clone, Copy)]
pub enum Part {
    /// The whole TPDO: the count of SYNCs is 0, no event waits, the inhibit time is over, and the
    /// event timer begins.
    Whole,
    /// The event timer alone: it begins.
    Timer,
}

/// The countdowns of one TPDO, in 16 bytes. A tick reads nothing else of a TPDO, unless its
/// countdowns make it due.
#[derive(Clone, Copy)]
pub struct Tpdo {
    /// k of 1800h + k.
    pub number: PdoNumber,
    /// As at the last whole start.
    pub transmission_type: TransmissionType,
    /// The inhibit time in ms, as at the last whole start.
    pub inhibit: u16,
    /// The event timer in ms, as at the last start, whole or of the timer.
    pub timer: u16,
    /// A SYNC began its count.
    pub has_begun: bool,
    /// At types 1 to 240: how many counted SYNCs are left up to the one that sends it.
    pub syncs_left: u8,
    /// An event came since the last SYNC.
    pub event_since_sync: bool,
    /// An event came since the last sending.
    pub event_waits: bool,
    /// How many ticks of the inhibit time are left.
    pub inhibit_left: u16,
    /// How many ticks are left to the event of the timer; 0 once it came.
    pub timer_left: u16,
}

/// Whether a number is one of those.
fn is_among(number: PdoNumber, numbers: &[PdoNumber]) -> bool
    ensures { result ≡ is_among number numbers.now }
{
    let number = number.get();
    numbers.iter().any(|other| other.get() == number)
}

impl Tpdo {
    /// A TPDO that was never started.
    pub(crate) fn new(number: PdoNumber) -> Tpdo
        ensures number { result.number ≡ number }
        ensures after { IsAfter result [] }
    {
        Tpdo {
            number,
            transmission_type: TransmissionType(0),
            inhibit: 0,
            timer: 0,
            has_begun: false,
            syncs_left: 0,
            event_since_sync: false,
            event_waits: false,
            inhibit_left: 0,
            timer_left: 0,
        }
    }

    /// Starts the whole TPDO, or its event timer alone.
    pub(crate) fn start(&mut self, settings: &Settings, part: Part)
        ensures number { self.new.number ≡ self.old.number }
        ensures after { (log : Log) → IsAfter self.old log →
            IsAfter self.new (Started part settings.now ∷ log) }
    {
        match part {
            Part::Whole => {
                *self = Tpdo {
                    number: self.number,
                    transmission_type: settings.transmission_type,
                    inhibit: settings.inhibit_time.div_ceil(10),
                    timer: settings.event_timer,
                    has_begun: false,
                    syncs_left: settings.transmission_type.0,
                    event_since_sync: false,
                    event_waits: false,
                    inhibit_left: 0,
                    timer_left: settings.event_timer,
                };
            }
            Part::Timer => {
                self.timer = settings.event_timer;
                self.timer_left = settings.event_timer;
            }
        }
    }

    /// Whether this is a SYNC, and the transmission type is not synchronous.
    #[inline(always)]
    fn passes_over(&self, occasion: Occasion) -> bool
        ensures { result ≡ passes_over occasion self.now }
    {
        match occasion {
            Occasion::Sync(_, _) => !self.transmission_type.is_synchronous(),
            Occasion::Event | Occasion::Tick => false,
        }
    }

    /// Whether this is a SYNC that counts: the count has begun, or begins with it.
    #[inline(always)]
    fn counts<S: ObjectStore>(&self, occasion: Occasion, store: &S, places: &Places) -> bool
        requires { self.now.number < 512 }
        ensures { places.now ≡ places_of (S.description store.now) self.now.number → result ≡
            counts (settings_of (S.contents store.now) self.now.number) occasion self.now }
    {
        match occasion {
            Occasion::Sync(overflow, counter) => {
                self.has_begun || begins_count(places.start_value(store), overflow, counter)
            }
            Occasion::Event | Occasion::Tick => false,
        }
    }

    /// Counts a SYNC that counts, an event or a tick. Returns whether the countdowns make the TPDO
    /// due.
    #[inline(always)]
    fn count(&mut self, occasion: Occasion, counts: bool) -> bool
        ensures state { self.new ≡ counted occasion counts self.old }
        ensures due { result ≡ wants occasion counts self.old }
    {
        match occasion {
            Occasion::Sync(_, _) => {
                let is_last = self.syncs_left <= 1;
                let event = self.event_since_sync;
                self.has_begun = counts;
                if counts {
                    self.syncs_left = if is_last {
                        self.transmission_type.0
                    } else {
                        self.syncs_left - 1
                    };
                }
                self.event_since_sync = false;
                if self.transmission_type.0 == 0 {
                    event
                } else {
                    counts && is_last && self.transmission_type.is_synchronous()
                }
            }
            Occasion::Event => {
                self.event_since_sync = true;
                self.event_waits = true;
                self.transmission_type.is_event_driven() && self.inhibit_left == 0
            }
            Occasion::Tick => {
                self.event_waits = self.event_waits || self.timer_left == 1;
                self.inhibit_left = self.inhibit_left.saturating_sub(1);
                self.timer_left = self.timer_left.saturating_sub(1);
                self.transmission_type.is_event_driven()
                    && self.event_waits
                    && self.inhibit_left == 0
            }
        }
    }

    /// Notes that the TPDO is sent.
    #[inline(always)]
    fn mark_sent(&mut self)
        ensures { self.new ≡ marked self.old }
    {
        self.event_waits = false;
        self.inhibit_left = self.inhibit;
        self.timer_left = self.timer;
    }

    /// A SYNC, an event or a tick. Returns whether the TPDO is sent, which it is if and only if it
    /// is due. Its places are read only if a SYNC may begin its count, or the countdowns make it
    /// due.
    #[inline(always)]
    pub(crate) fn happens<S: ObjectStore>(
        &mut self,
        occasion: Occasion,
        store: &S,
        places: &Places,
    ) -> bool
        requires { self.old.number < 512 }
        ensures number { self.new.number ≡ self.old.number }
        ensures due { places.now ≡ places_of (S.description store.now) self.old.number →
            (log : Log) → let s = settings_of (S.contents store.now) self.old.number in
            IsAfter self.old log → IsCurrent s log → result ≡ is_due s log occasion }
        ensures after { places.now ≡ places_of (S.description store.now) self.old.number →
            (log : Log) → let s = settings_of (S.contents store.now) self.old.number in
            IsAfter self.old log → IsCurrent s log →
            IsAfter self.new (Happened occasion s result ∷ log) }
    {
        if self.passes_over(occasion) {
            return false;
        }
        let counts = self.counts(occasion, store, places);
        let due = self.count(occasion, counts) && places.is_active(store);
        if due {
            self.mark_sent();
        }
        due
    }

    /// During this many ticks the countdowns don't make it due, if nothing else happens: a lower
    /// bound.
    fn ticks_left(&self) -> u32
        ensures { (log : Log) (n : ℕ) (s : Settings) → IsAfter self.now log → IsCurrent s log →
            n ≤ result → NotDueFor s n log }
    {
        let driven = self.transmission_type.is_event_driven();
        let waits = self.event_waits;
        let inhibit = u32::from(self.inhibit_left);
        let timer = u32::from(self.timer_left);
        if !driven {
            return u32::MAX;
        }
        if waits {
            return inhibit.saturating_sub(1);
        }
        if timer == 0 {
            return u32::MAX;
        }
        timer.max(inhibit) - 1
    }

    /// During this many ticks it isn't due, if nothing else happens: a lower bound.
    pub(crate) fn idle<S: ObjectStore>(&self, store: &S, places: &Places) -> u32
        requires { self.now.number < 512 }
        ensures { places.now ≡ places_of (S.description store.now) self.now.number →
            (log : Log) (n : ℕ) → let s = settings_of (S.contents store.now) self.now.number in
            IsAfter self.now log → IsCurrent s log → n ≤ result → NotDueFor s n log }
    {
        let active = places.is_active(store);
        if !active {
            return u32::MAX;
        }
        self.ticks_left()
    }

    /// An event, if the TPDO's number is among these. Returns whether the TPDO is sent.
    pub(crate) fn happens_among<S: ObjectStore>(
        &mut self,
        numbers: &[PdoNumber],
        store: &S,
        places: &Places,
    ) -> bool
        requires { self.old.number < 512 }
        ensures number { self.new.number ≡ self.old.number }
        ensures due { places.now ≡ places_of (S.description store.now) self.old.number →
            (log : Log) → let s = settings_of (S.contents store.now) self.old.number in
            IsAfter self.old log → IsCurrent s log →
            result ≡ is_among self.old.number numbers.now && is_due s log Occasion.Event }
        ensures after { places.now ≡ places_of (S.description store.now) self.old.number →
            (log : Log) → let s = settings_of (S.contents store.now) self.old.number in
            IsAfter self.old log → IsCurrent s log →
            IsAfter self.new (with_event_if (is_among self.old.number numbers.now) s log) }
    {
        if is_among(self.number, numbers) {
            self.happens(Occasion::Event, store, places)
        } else {
            false
        }
    }
}
