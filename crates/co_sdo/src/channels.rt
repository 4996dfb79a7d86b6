//! The channels in a list, each with its number.

ghost use Rattle.std.specs.Prelude.{◌≡◌, ℕ, ◌+◌, ◌≤◌, ◌==◌, [], None, false, IfOk, OnOk, List, length, position};
ghost use Rattle.co_dict.specs.Stores.{Description};
ghost use Rattle.co_sdo.specs.Log.{Log, Ticked, Dropped};
ghost use Rattle.co_sdo.specs.Standing.{is_expired};
ghost use Rattle.co_sdo.specs.Channels.{ChannelSettings, channels_below, channels_of};
ghost use Rattle.co_sdo.specs.Banks.{AreInTimeFor, BankStands, all_settings, places_below};
ghost use Rattle.co_sdo.specs.Events.{with_each};

use crate::{Channel, Ids};
use co_dict::{ObjectStore, sdo_channel};
use std::alloc::{AllocError, Global};

/// How many identifiers there are: 0 to 7FFh.
const IDENTIFIERS: u16 = 2048;

/// A channel and its number, j of 1200h + j.
#[derive(Drop)]
pub(crate) struct NumberedChannel {
    pub(crate) number: u8,
    pub(crate) channel: Channel,
}

/// Appends the channel with a number, if it exists.
fn add_channel<S: ObjectStore>(
    bank: &mut Vec<NumberedChannel>,
    alloc: Global,
    store: &S,
    number: u8,
    greatest: u32,
    time: u16,
) -> Result<(), AllocError>
    requires { number ≤ 127 }
    ensures { OnOk result (BankStands (S.description store.now) (channels_below number
        (S.description store.now) (S.contents store.now) greatest time) bank.old.items (λ n. []) →
        BankStands (S.description store.now) (channels_below (number + 1) (S.description store.now)
        (S.contents store.now) greatest time) bank.new.items (λ n. [])) }
{
    if let Some(found) = sdo_channel(store, number) {
        let ids = Ids {
            request: found.request,
            answer: found.answer,
        };
        let channel = Channel::new(alloc, ids, greatest, time)?;
        bank.push(NumberedChannel { number, channel })?;
    }
    Ok(())
}

/// The channels that exist.
pub(crate) fn existing_channels<S: ObjectStore>(
    alloc: Global,
    store: &S,
    greatest: u32,
    time: u16,
) -> Result<Vec<NumberedChannel>, AllocError>
    ensures { IfOk result (λ bank. BankStands (S.description store.now) (channels_of
        (S.description store.now) (S.contents store.now) greatest time) bank.items (λ n. [])) }
{
    let mut bank = Vec::new(alloc);
    for number in 0..128u8 {
        add_channel(&mut bank, alloc, store, number, greatest, time)?;
    }
    Ok(bank)
}

/// 1 ms elapsed on each channel. Returns false only if none has timed out then.
pub(crate) fn tick_each(bank: &mut [NumberedChannel]) -> bool
    ensures settings { all_settings bank.new ≡ all_settings bank.old }
    ensures stands { (d : Description) (channels : List ChannelSettings) (logs : ℕ → Log) →
        BankStands d channels bank.old logs → BankStands d channels bank.new (with_each Ticked logs) }
    ensures none { result ≡ false → position (λ c. is_expired c.channel) bank.new ≡ None }
{
    let mut is_over = false;
    for numbered in bank.iter_mut() {
        numbered.channel.tick();
        is_over |= numbered.channel.expired();
    }
    is_over
}

/// During this many ticks none of them times out, if nothing else happens: a lower bound.
pub(crate) fn idle_among(bank: &[NumberedChannel]) -> u32
    ensures { (d : Description) (channels : List ChannelSettings) (logs : ℕ → Log) (n : ℕ) →
        BankStands d channels bank.now logs → n ≤ result →
        AreInTimeFor n (length bank.now) bank.now logs }
{
    let mut least = u32::MAX;
    for numbered in bank.iter() {
        let idle = numbered.channel.idle();
        least = least.min(idle);
    }
    least
}

/// Drops the open transfer of each channel, without an abort.
pub(crate) fn drop_each(bank: &mut [NumberedChannel])
    ensures settings { all_settings bank.new ≡ all_settings bank.old }
    ensures stands { (d : Description) (channels : List ChannelSettings) (logs : ℕ → Log) →
        BankStands d channels bank.old logs → BankStands d channels bank.new (with_each Dropped logs) }
{
    for numbered in bank.iter_mut() {
        numbered.channel.drop_transfer();
    }
}

/// The place of the first channel that has timed out.
pub(crate) fn expired_place(bank: &[NumberedChannel]) -> Option<usize>
    ensures { result ≡ position (λ c. is_expired c.channel) bank.now }
{
    bank.iter().position(|numbered| numbered.channel.expired())
}

/// The place of the channel with a number.
pub(crate) fn place_of(bank: &[NumberedChannel], number: u8) -> Option<usize>
    ensures { result ≡ position (λ c. c.number == number) bank.now }
{
    bank.iter().position(|numbered| numbered.number == number)
}

/// The place of the first channel whose requests have an identifier.
fn receiver_place(bank: &[NumberedChannel], id: u16) -> Option<usize>
    ensures { result ≡ position (λ c. c.channel.request == id) bank.now }
{
    bank.iter()
        .position(|numbered| numbered.channel.ids().request == id)
}

/// The same as a byte.
fn receiver_byte(bank: &[NumberedChannel], id: u16) -> Option<u8>
    requires { length bank.now ≤ 128 }
    ensures { result ≡ position (λ c. c.channel.request == id) bank.now }
{
    match receiver_place(bank, id) {
        Some(place) => Some(place as u8),
        None => None,
    }
}

/// For each identifier the place of the first channel whose requests have it.
pub(crate) fn places_by_id(
    alloc: Global,
    bank: &[NumberedChannel],
) -> Result<Vec<Option<u8>>, AllocError>
    requires { length bank.now ≤ 128 }
    ensures { IfOk result (λ places. places.items ≡ places_below 2048 (all_settings bank.now)) }
{
    let mut places = Vec::with_capacity(alloc, usize::from(IDENTIFIERS))?;
    for id in 0..IDENTIFIERS {
        places.push(receiver_byte(bank, id))?;
    }
    Ok(places)
}
