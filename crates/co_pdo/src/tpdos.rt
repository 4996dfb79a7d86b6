//! All TPDOs of a dictionary.

ghost use Rattle.std.specs.Prelude.{◌≡◌, ℕ, ◌<◌, ◌≤◌, ◌==◌, ◌&&◌, List, [], length, map, position, IfOk};
ghost use Rattle.std.specs.List.{filter};
ghost use Rattle.co_dict.specs.Rows.{number_at};
ghost use Rattle.co_profile.specs.Keys.{counter_overflow_key};
ghost use Rattle.co_pdo.specs.Tpdos.{settings_of, tpdos_of};
ghost use Rattle.co_pdo.specs.Log.{Log};
ghost use Rattle.co_pdo.specs.Due.{is_due};
ghost use Rattle.co_pdo.specs.Schedules.{
  IsTable,
  ArePlaces,
  AllAfter,
  AllCurrentAfter,
  AreNotDueFor,
  is_among,
  with_occasion,
  with_whole_start,
  with_events_among,
};

use crate::pdos::has_pdo;
use crate::places::Places;
use crate::tpdo::{Occasion, Part, Tpdo};
use arrayvec::ArrayVec;
use co_dict::{ObjectStore, Side};
use co_profile::PdoNumber;
use std::alloc::{AllocError, Global};

/// The numbers of TPDOs that are due, increasing.
pub type Due = ArrayVec<PdoNumber, 512>;

/// The TPDOs that the dictionary has, none of them started.
pub(crate) fn tpdos_in<S: ObjectStore>(alloc: Global, store: &S) -> Result<Vec<Tpdo>, AllocError>
    ensures numbers { IfOk result (λ tpdos.
        map (λ t. t.number) tpdos.items ≡ tpdos_of (S.description store.now).rows) }
    ensures after { IfOk result (λ tpdos. AllAfter tpdos.items (λ _. [])) }
    ensures table { IfOk result (λ tpdos. IsTable tpdos.items) }
{
    let mut tpdos = Vec::with_capacity(alloc, 512)?;
    for k in 0..512u16 {
        let number = PdoNumber::of(k);
        if has_pdo(store, Side::Tpdo, number) {
            tpdos.push_reserved(Tpdo::new(number));
        }
    }
    Ok(tpdos)
}

/// The places of each of these TPDOs.
pub(crate) fn places_in<S: ObjectStore>(
    alloc: Global,
    store: &S,
    tpdos: &[Tpdo],
) -> Result<Vec<Places>, AllocError>
    requires { IsTable tpdos.now }
    ensures { IfOk result (λ places.
        ArePlaces (S.description store.now) (map (λ t. t.number) tpdos.now) places.items) }
{
    let mut places = Vec::with_capacity(alloc, tpdos.len())?;
    for tpdo in tpdos {
        places.push_reserved(Places::of(store, tpdo.number));
    }
    Ok(places)
}

/// The synchronous counter overflow value, by the place that each TPDO has of it; 0 if there is no
/// TPDO.
pub(crate) fn counter_overflow<S: ObjectStore>(places: &[Places], store: &S) -> u8
    ensures { (numbers : List ℕ) → ArePlaces (S.description store.now) numbers places.now →
        0 < length numbers → result ≡ number_at (S.contents store.now) counter_overflow_key }
{
    match places.first() {
        Some(places) => places.counter_overflow(store),
        None => 0,
    }
}

/// A SYNC or a tick for each of them; leaves the numbers of those that are sent in `sent`.
#[inline(always)]
pub(crate) fn all_happen<S: ObjectStore>(
    tpdos: &mut [Tpdo],
    places: &[Places],
    occasion: Occasion,
    store: &S,
    sent: &mut Due,
)
    requires table { IsTable tpdos.old }
    requires places { length places.now ≡ length tpdos.old }
    ensures numbers { map (λ t. t.number) tpdos.new ≡ map (λ t. t.number) tpdos.old }
    ensures due { (logs : ℕ → Log) →
        ArePlaces (S.description store.now) (map (λ t. t.number) tpdos.old) places.now →
        AllAfter tpdos.old logs →
        AllCurrentAfter (S.contents store.now) logs →
        sent.new.items ≡
        filter (λ k. is_due (settings_of (S.contents store.now) k) (logs k) occasion)
        (map (λ t. t.number) tpdos.old) }
    ensures after { (logs : ℕ → Log) →
        ArePlaces (S.description store.now) (map (λ t. t.number) tpdos.old) places.now →
        AllAfter tpdos.old logs →
        AllCurrentAfter (S.contents store.now) logs →
        AllAfter tpdos.new
        (with_occasion (S.contents store.now) occasion logs) }
    ensures few { length sent.new.items ≤ length tpdos.old }
{
    sent.clear();
    for i in 0..tpdos.len() {
        let tpdo = &mut tpdos[i];
        if tpdo.happens(occasion, store, &places[i]) {
            sent.push(tpdo.number);
        }
    }
}

/// An event for each of them whose number is among these; leaves the numbers of those that are sent
/// in `sent`.
pub(crate) fn all_happen_among<S: ObjectStore>(
    tpdos: &mut [Tpdo],
    places: &[Places],
    numbers: &[PdoNumber],
    store: &S,
    sent: &mut Due,
)
    requires table { IsTable tpdos.old }
    requires places { length places.now ≡ length tpdos.old }
    ensures numbers { map (λ t. t.number) tpdos.new ≡ map (λ t. t.number) tpdos.old }
    ensures due { (logs : ℕ → Log) →
        ArePlaces (S.description store.now) (map (λ t. t.number) tpdos.old) places.now →
        AllAfter tpdos.old logs →
        AllCurrentAfter (S.contents store.now) logs →
        sent.new.items ≡ filter (λ k. is_among k numbers.now &&
        is_due (settings_of (S.contents store.now) k) (logs k) Occasion.Event)
        (map (λ t. t.number) tpdos.old) }
    ensures after { (logs : ℕ → Log) →
        ArePlaces (S.description store.now) (map (λ t. t.number) tpdos.old) places.now →
        AllAfter tpdos.old logs →
        AllCurrentAfter (S.contents store.now) logs →
        AllAfter tpdos.new
        (with_events_among numbers.now (S.contents store.now) logs) }
    ensures few { length sent.new.items ≤ length tpdos.old }
{
    sent.clear();
    for i in 0..tpdos.len() {
        let tpdo = &mut tpdos[i];
        if tpdo.happens_among(numbers, store, &places[i]) {
            sent.push(tpdo.number);
        }
    }
}

/// During this many ticks none of them is due, if nothing else happens: a lower bound.
pub(crate) fn idle_among<S: ObjectStore>(tpdos: &[Tpdo], places: &[Places], store: &S) -> u32
    requires table { IsTable tpdos.now }
    requires places { length places.now ≡ length tpdos.now }
    ensures { (logs : ℕ → Log) (n : ℕ) →
        ArePlaces (S.description store.now) (map (λ t. t.number) tpdos.now) places.now →
        AllAfter tpdos.now logs →
        AllCurrentAfter (S.contents store.now) logs →
        n ≤ result → AreNotDueFor (S.contents store.now) n (length tpdos.now) tpdos.now logs }
{
    let mut least = u32::MAX;
    for i in 0..tpdos.len() {
        let idle = tpdos[i].idle(store, &places[i]);
        least = least.min(idle);
    }
    least
}

/// Starts each of them whole.
pub(crate) fn all_start<S: ObjectStore>(tpdos: &mut [Tpdo], places: &[Places], store: &S)
    requires table { IsTable tpdos.old }
    requires places { length places.now ≡ length tpdos.old }
    ensures numbers { map (λ t. t.number) tpdos.new ≡ map (λ t. t.number) tpdos.old }
    ensures after { (logs : ℕ → Log) →
        ArePlaces (S.description store.now) (map (λ t. t.number) tpdos.old) places.now →
        AllAfter tpdos.old logs →
        AllAfter tpdos.new
        (with_whole_start (S.contents store.now) logs) }
{
    for i in 0..tpdos.len() {
        let settings = places[i].settings(store);
        tpdos[i].start(&settings, Part::Whole);
    }
}

/// The place of the TPDO with a number.
pub(crate) fn place_of(tpdos: &[Tpdo], k: PdoNumber) -> Option<usize>
    ensures place { result ≡ position (λ t. t.number == k) tpdos.now }
    ensures small { k < 512 }
{
    let number = k.get();
    tpdos.iter().position(|tpdo| tpdo.number.get() == number)
}
