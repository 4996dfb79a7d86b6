//! When TPDOs are due.

ghost use Rattle.std.specs.Prelude.{◌≡◌, ℕ, ◌≤◌, ◌==◌, false, [], length, IfOk};
ghost use Rattle.co_dict.specs.declared.side.Side.{Side};
ghost use Rattle.co_pdo.specs.declared.settings.Settings.{Settings};
ghost use Rattle.co_pdo.specs.Pdos.{cob_id_of};
ghost use Rattle.co_pdo.specs.Tpdos.{settings_of};
ghost use Rattle.co_pdo.specs.Countdowns.{IsCurrent, IsAsStarted};
ghost use Rattle.co_pdo.specs.Schedules.{
  History,
  log_of,
  sync_with,
  with_start,
  with_all_started,
  with_sync,
  with_event,
  with_events,
  with_tick,
  is_tpdo_due,
  all_due,
  all_due_among,
  NoTpdoDueFor,
  IsScheduleAfter,
  IsCurrentOn,
  AllCurrent,
};

use crate::pdos::cob_id;
use crate::places::Places;
use crate::tpdo::{Occasion, Part, Tpdo};
use crate::tpdos::{
    Due, all_happen, all_happen_among, all_start, counter_overflow, idle_among, place_of,
    places_in, tpdos_in,
};
use co_dict::{CobId, ObjectStore, Side};
use co_profile::PdoNumber;
use std::alloc::{AllocError, Global};
use std::boxed::BoxedSlice;
use std::marker::Model;

/// The schedule of the TPDOs of a dictionary: when each is due, by its transmission type, inhibit
/// time and event timer (CiA 301, 7.2.2 and 7.5.2.37). `new` allocates all memory.
///
/// Each call gets the dictionary and reads it by the places that `new` looked up. Before the next
/// SYNC, event or tick the caller has to start a TPDO whose parameters were written: after a write
/// of its COB-ID, transmission type, inhibit time or mapping the whole TPDO, if it is active; after
/// a write of its event timer the timer at least. The SYNC start value and 1019h are read at each
/// SYNC before the count begins.
#[derive(Drop)]
pub struct Schedule {
    tpdos: BoxedSlice<Tpdo>,
    // the places of each TPDO, apart from the countdowns, which are all that most ticks read
    places: BoxedSlice<Places>,
}

impl Model for Schedule {
    ghost use Rattle.std.specs.Box.{boxed_slice_items};
    ghost use Rattle.co_pdo.specs.Schedules.{Timetable, IsTimetable};

    ghost Value = { Timetable };

    ghost view = { λ s. record {
      tpdos = boxed_slice_items s.tpdos;
      places = boxed_slice_items s.places;
    } };

    ghost invariant = { λ s. IsTimetable (boxed_slice_items s.tpdos) (boxed_slice_items s.places) };
}

impl Schedule {
    /// A schedule for the TPDOs of a dictionary, none of them started. `AllocError` if memory can't
    /// be allocated.
    pub fn new<S: ObjectStore>(alloc: Global, store: &S) -> Result<Schedule, AllocError>
        ensures { IfOk result (λ schedule. IsScheduleAfter (S.description store.now) schedule []) }
    {
        let tpdos = tpdos_in(alloc, store)?;
        let places = places_in(alloc, store, &tpdos)?;
        // copied, since the list of the TPDOs has room for 512
        let tpdos = BoxedSlice::from_slice(alloc, &tpdos)?;
        Ok(Schedule {
            tpdos,
            places: places.into_boxed_slice(),
        })
    }

    /// How many TPDOs the dictionary has, at most 512.
    pub fn tpdo_count(&self) -> usize
        ensures count { result ≡ length self.now.tpdos }
        ensures few { result ≤ 512 }
    {
        self.tpdos.len()
    }

    /// The COB-ID word of TPDO k; 0 if there is no such TPDO (CiA 301, 7.5.2.37). It costs no
    /// search if the dictionary has each TPDO before it.
    pub fn cob_id<S: ObjectStore>(&self, store: &S, k: PdoNumber) -> CobId
        ensures { (history : History) →
            IsScheduleAfter (S.description store.now) self.now history →
            result.0 ≡ cob_id_of Side.Tpdo (S.contents store.now) k }
    {
        let number = k.get();
        let place = usize::from(number);
        match self.tpdos.get(place) {
            Some(tpdo) if tpdo.number.get() == number => self.places[place].cob_id(store),
            _ => cob_id(store, Side::Tpdo, k),
        }
    }

    /// Starts TPDO k: the whole TPDO when the device enters NMT state operational, and after a
    /// write of its COB-ID, transmission type, inhibit time or mapping; or its event timer alone,
    /// after a write of that. Nothing happens if there is no such TPDO.
    pub fn start<S: ObjectStore>(&mut self, store: &S, k: PdoNumber, part: Part)
        ensures after { (history : History) →
            IsScheduleAfter (S.description store.now) self.old history →
            IsScheduleAfter (S.description store.now) self.new
            (with_start k part (S.contents store.now) history) }
        ensures whole { (history : History) → part ≡ Part.Whole →
            IsCurrentOn (S.contents store.now) k
            (with_start k part (S.contents store.now) history) }
        ensures timer { (history : History) →
            IsAsStarted (settings_of (S.contents store.now) k) (log_of k history) →
            IsCurrentOn (S.contents store.now) k
            (with_start k part (S.contents store.now) history) }
        ensures others { (history : History) (j : ℕ) (s : Settings) → (k == j) ≡ false →
            IsCurrent s (log_of j history) →
            IsCurrent s (log_of j (with_start k part (S.contents store.now) history)) }
        ensures size { length self.new.tpdos ≡ length self.old.tpdos }
    {
        if let Some(i) = place_of(&self.tpdos, k) {
            let settings = self.places[i].settings(store);
            self.tpdos[i].start(&settings, part);
        }
    }

    /// Starts each whole TPDO, when the device enters NMT state operational.
    pub fn start_all<S: ObjectStore>(&mut self, store: &S)
        ensures after { (history : History) →
            IsScheduleAfter (S.description store.now) self.old history →
            IsScheduleAfter (S.description store.now) self.new
            (with_all_started (S.contents store.now) history) }
        ensures current { (history : History) →
            AllCurrent (S.contents store.now) (with_all_started (S.contents store.now) history) }
        ensures size { length self.new.tpdos ≡ length self.old.tpdos }
    {
        all_start(&mut self.tpdos, &self.places, store);
    }

    /// A SYNC was received, with or without its counter. Leaves the numbers of the TPDOs that are
    /// due in `sent`, in increasing order; these count as sent. A TPDO of type 1 to 240 with a SYNC
    /// start value of 1 to 240 counts from the SYNC with that counter, unless 1019h is 0 or absent;
    /// any other from the first SYNC after its start (CiA 301, 7.5.2.37).
    #[inline(always)]
    pub fn on_sync<S: ObjectStore>(&mut self, store: &S, counter: Option<u8>, sent: &mut Due)
        ensures due { (history : History) →
            IsScheduleAfter (S.description store.now) self.old history →
            AllCurrent (S.contents store.now) history →
            sent.new.items ≡
            all_due (S.contents store.now) history (sync_with counter (S.contents store.now)) }
        ensures after { (history : History) →
            IsScheduleAfter (S.description store.now) self.old history →
            AllCurrent (S.contents store.now) history →
            IsScheduleAfter (S.description store.now) self.new
            (with_sync counter (S.contents store.now) sent.new.items history) }
        ensures current { (history : History) (j : ℕ) (s : Settings) →
            IsCurrent s (log_of j history) →
            IsCurrent s
            (log_of j (with_sync counter (S.contents store.now) sent.new.items history)) }
        ensures few { length sent.new.items ≤ length self.old.tpdos }
        ensures size { length self.new.tpdos ≡ length self.old.tpdos }
    {
        let sync = Occasion::Sync(counter_overflow(&self.places, store), counter);
        all_happen(&mut self.tpdos, &self.places, sync, store, sent);
    }

    /// An event of TPDO k. Returns whether the TPDO is due; it then counts as sent. False if there
    /// is no such TPDO.
    pub fn on_event<S: ObjectStore>(&mut self, store: &S, k: PdoNumber) -> bool
        ensures due { (history : History) →
            IsScheduleAfter (S.description store.now) self.old history →
            AllCurrent (S.contents store.now) history →
            result ≡ is_tpdo_due (S.contents store.now) history Occasion.Event k }
        ensures after { (history : History) →
            IsScheduleAfter (S.description store.now) self.old history →
            AllCurrent (S.contents store.now) history →
            IsScheduleAfter (S.description store.now) self.new
            (with_event k (S.contents store.now) result history) }
        ensures current { (history : History) (j : ℕ) (s : Settings) →
            IsCurrent s (log_of j history) →
            IsCurrent s (log_of j (with_event k (S.contents store.now) result history)) }
        ensures size { length self.new.tpdos ≡ length self.old.tpdos }
    {
        match place_of(&self.tpdos, k) {
            Some(i) => self.tpdos[i].happens(Occasion::Event, store, &self.places[i]),
            None => false,
        }
    }

    /// An event of each TPDO among `numbers`. Leaves the numbers of those that are due in `sent`,
    /// in increasing order; these count as sent.
    pub fn on_events<S: ObjectStore>(&mut self, store: &S, numbers: &[PdoNumber], sent: &mut Due)
        ensures due { (history : History) →
            IsScheduleAfter (S.description store.now) self.old history →
            AllCurrent (S.contents store.now) history →
            sent.new.items ≡ all_due_among numbers.now (S.contents store.now) history }
        ensures after { (history : History) →
            IsScheduleAfter (S.description store.now) self.old history →
            AllCurrent (S.contents store.now) history →
            IsScheduleAfter (S.description store.now) self.new
            (with_events numbers.now (S.contents store.now) sent.new.items history) }
        ensures current { (history : History) (j : ℕ) (s : Settings) →
            IsCurrent s (log_of j history) → IsCurrent s
            (log_of j (with_events numbers.now (S.contents store.now) sent.new.items history)) }
        ensures few { length sent.new.items ≤ length self.old.tpdos }
        ensures size { length self.new.tpdos ≡ length self.old.tpdos }
    {
        all_happen_among(&mut self.tpdos, &self.places, numbers, store, sent);
    }

    /// 1 ms elapsed. Leaves the numbers of the TPDOs that are due in `sent`, in increasing order;
    /// these count as sent.
    #[inline(always)]
    pub fn on_tick<S: ObjectStore>(&mut self, store: &S, sent: &mut Due)
        ensures due { (history : History) →
            IsScheduleAfter (S.description store.now) self.old history →
            AllCurrent (S.contents store.now) history →
            sent.new.items ≡ all_due (S.contents store.now) history Occasion.Tick }
        ensures after { (history : History) →
            IsScheduleAfter (S.description store.now) self.old history →
            AllCurrent (S.contents store.now) history →
            IsScheduleAfter (S.description store.now) self.new
            (with_tick (S.contents store.now) sent.new.items history) }
        ensures current { (history : History) (j : ℕ) (s : Settings) →
            IsCurrent s (log_of j history) →
            IsCurrent s (log_of j (with_tick (S.contents store.now) sent.new.items history)) }
        ensures few { length sent.new.items ≤ length self.old.tpdos }
        ensures size { length self.new.tpdos ≡ length self.old.tpdos }
    {
        all_happen(&mut self.tpdos, &self.places, Occasion::Tick, store, sent);
    }

    /// During this many ticks (1 ms each) no TPDO is due, if nothing else happens: a lower bound.
    pub fn idle<S: ObjectStore>(&self, store: &S) -> u32
        ensures { (history : History) (n : ℕ) →
            IsScheduleAfter (S.description store.now) self.now history →
            AllCurrent (S.contents store.now) history →
            n ≤ result → NoTpdoDueFor (S.contents store.now) n history }
    {
        let tpdos: &[Tpdo] = &self.tpdos;
        let places: &[Places] = &self.places;
        idle_among(tpdos, places, store)
    }
}
