//! All SDO channels of a device as one part.

ghost use Rattle.std.specs.Prelude.{◌≡◌, ℕ, ◌+◌, ◌<◌, ◌≤◌, ◌++◌, [], IfOk, IfSome, List, MatchOption};
ghost use Rattle.arrayvec.specs.ArrayVec.{array_vec_len};
ghost use Rattle.co_value.specs.declared.key.Key.{Key};
ghost use Rattle.co_frame.specs.Outboxes.{HasRoomFor};
ghost use Rattle.co_frame.specs.SegmentSizes.{segments_per_sub_block};
ghost use Rattle.co_dict.specs.Rows.{Rows, capacity_at};
ghost use Rattle.co_dict.specs.Stores.{Description};
ghost use Rattle.co_sdo.specs.Log.{Log, Ticked, Dropped};
ghost use Rattle.co_sdo.specs.Completed.{contents_with, key_set};
ghost use Rattle.co_sdo.specs.Standing.{room_after};
ghost use Rattle.co_sdo.specs.Channels.{ChannelSettings, HaveRoom, channels_of};
ghost use Rattle.co_sdo.specs.Banks.{BankStands, all_settings};
ghost use Rattle.co_sdo.specs.Events.{
  NoTimeOutFor,
  exchange_of,
  frames_at,
  held_on,
  logs_after,
  number_for,
  number_in,
  set_of,
  time_out_of,
  with_each,
};

use crate::channels::{
    NumberedChannel, drop_each, existing_channels, expired_place, idle_among, place_of,
    places_by_id, tick_each,
};
use co_dict::ObjectStore;
use co_frame::{Frame, Outbox};
use co_value::Key;
use std::alloc::{AllocError, Global};
use std::boxed::BoxedSlice;
use std::marker::Model;

/// All SDO channels of a device, in increasing number, each with a buffer of its own (CiA 301,
/// 7.2.4.3). It allocates no memory after `new`. Contracts see the channels with their numbers.
#[derive(Drop)]
pub struct Bank {
    channels: BoxedSlice<NumberedChannel>,
    // the place of the first channel whose requests have an identifier, by identifier: no frame
    // costs a search
    places: BoxedSlice<Option<u8>>,
}

impl Model for Bank {
    ghost use Rattle.std.specs.Prelude.{List};
    ghost use Rattle.std.specs.Box.{boxed_slice_items};
    ghost use Rattle.co_sdo.specs.declared.channels.NumberedChannel.{NumberedChannel};
    ghost use Rattle.co_sdo.specs.Banks.{IsBank, all_settings};

    ghost Value = { List NumberedChannel };

    ghost view = { λ b. boxed_slice_items b.channels };

    ghost invariant = { λ b. IsBank (boxed_slice_items b.places)
        (all_settings (boxed_slice_items b.channels)) };
}

impl Bank {
    /// The channels that exist in a dictionary: channel 0, and channel j if the COB-ID words 1200h
    /// + j, sub-index 1 and 2, are valid (CiA 301, 7.5.2.33). None of them has received anything.
    /// Each allocates a buffer of `greatest` + 889 bytes, where `greatest` is the greatest capacity
    /// of an entry. `time` is the SDO timeout between two requests, in ms; 0 disables it.
    /// `AllocError` if memory can't be allocated.
    pub fn new<S: ObjectStore>(
        alloc: Global,
        store: &S,
        greatest: u32,
        time: u16,
    ) -> Result<Bank, AllocError>
        ensures stands { IfOk result (λ bank. BankStands (S.description store.now) (channels_of
            (S.description store.now) (S.contents store.now) greatest time) bank (λ n. [])) }
        ensures room { IfOk result (λ bank. (rows : Rows) → ((key : Key) → capacity_at rows key ≤
            greatest) → HaveRoom rows (all_settings bank)) }
    {
        let channels = existing_channels(alloc, store, greatest, time)?;
        let places = places_by_id(alloc, &channels)?;
        Ok(Bank {
            channels: channels.into_boxed_slice(),
            places: places.into_boxed_slice(),
        })
    }

    /// The number of the channel whose requests have an identifier, 0 to 7FFh; the lowest, if
    /// several have it.
    pub fn channel_for(&self, id: u16) -> Option<u8>
        requires { id < 2048 }
        ensures number { (d : Description) (channels : List ChannelSettings) (logs : ℕ → Log) →
            BankStands d channels self.now logs → result ≡ number_for channels id }
        ensures below { IfSome result (λ number. number < 128) }
    {
        match self.places[usize::from(id)] {
            Some(place) => Some(self.channels[usize::from(place)].number),
            None => None,
        }
    }

    /// Takes a frame, for the channel whose requests have its identifier (the lowest, if several
    /// have it). A frame that is no request of a channel, or hasn't eight bytes, is ignored. Else
    /// the responses are put into the outbox, at most 127 frames. If the frame completes a download
    /// that the dictionary permits, this sets its entry and returns its key; nothing else in the
    /// store changes.
    pub fn take<S: ObjectStore>(
        &mut self,
        store: &mut S,
        frame: &Frame,
        outbox: &mut Outbox,
    ) -> Option<Key>
        requires outbox { HasRoomFor segments_per_sub_block outbox.old }
        requires room { HaveRoom (S.description store.old).rows (all_settings self.old) }
        ensures few { array_vec_len outbox.new ≤ array_vec_len outbox.old + segments_per_sub_block }
        ensures settings { all_settings self.new ≡ all_settings self.old }
        ensures description { S.description store.new ≡ S.description store.old }
        ensures responses { (channels : List ChannelSettings) (logs : ℕ → Log) →
            BankStands (S.description store.old) channels self.old logs →
            outbox.new.items ≡ outbox.old.items ++ frames_at (exchange_of channels
            (S.description store.old) (S.contents store.old) logs frame.now) }
        ensures key { (channels : List ChannelSettings) (logs : ℕ → Log) →
            BankStands (S.description store.old) channels self.old logs →
            result ≡ key_set (set_of channels (S.description store.old) (S.contents store.old)
            logs frame.now) }
        ensures contents { (channels : List ChannelSettings) (logs : ℕ → Log) →
            BankStands (S.description store.old) channels self.old logs →
            S.contents store.new ≡ contents_with (S.contents store.old) (set_of channels
            (S.description store.old) (S.contents store.old) logs frame.now) }
        ensures stands { (channels : List ChannelSettings) (logs : ℕ → Log) →
            BankStands (S.description store.old) channels self.old logs →
            BankStands (S.description store.old) channels self.new (logs_after (exchange_of
            channels (S.description store.old) (S.contents store.old) logs frame.now) logs) }
    {
        match self.places[usize::from(frame.id())] {
            Some(place) => {
                let receiver = &mut self.channels[usize::from(place)];
                receiver.channel.take(store, frame, outbox)
            }
            None => None,
        }
    }

    /// 1 ms elapsed on every channel. Of the channels whose transfer has timed out, the one with
    /// the lowest number then aborts it (05040000h, SDO protocol timed out). Returns its number.
    /// The other transfers stay open.
    pub fn tick(&mut self, outbox: &mut Outbox) -> Option<u8>
        requires outbox { HasRoomFor 1 outbox.old }
        ensures count { MatchOption result (array_vec_len outbox.new ≡ array_vec_len outbox.old)
            (λ number. array_vec_len outbox.new ≡ array_vec_len outbox.old + 1) }
        ensures settings { all_settings self.new ≡ all_settings self.old }
        ensures which { (d : Description) (channels : List ChannelSettings) (logs : ℕ → Log) →
            BankStands d channels self.old logs →
            result ≡ number_in (time_out_of channels (with_each Ticked logs)) }
        ensures responses { (d : Description) (channels : List ChannelSettings) (logs : ℕ → Log) →
            BankStands d channels self.old logs → outbox.new.items ≡
            outbox.old.items ++ frames_at (time_out_of channels (with_each Ticked logs)) }
        ensures stands { (d : Description) (channels : List ChannelSettings) (logs : ℕ → Log) →
            BankStands d channels self.old logs → BankStands d channels self.new (logs_after
            (time_out_of channels (with_each Ticked logs)) (with_each Ticked logs)) }
    {
        if tick_each(&mut self.channels) {
            self.time_out_lowest(outbox)
        } else {
            None
        }
    }

    /// Aborts the timed-out transfer of the channel with the lowest number, and returns that
    /// number.
    #[cold]
    #[inline(never)]
    fn time_out_lowest(&mut self, outbox: &mut Outbox) -> Option<u8>
        requires outbox { HasRoomFor 1 outbox.old }
        ensures count { MatchOption result (array_vec_len outbox.new ≡ array_vec_len outbox.old)
            (λ number. array_vec_len outbox.new ≡ array_vec_len outbox.old + 1) }
        ensures settings { all_settings self.new ≡ all_settings self.old }
        ensures which { (d : Description) (channels : List ChannelSettings) (logs : ℕ → Log) →
            BankStands d channels self.old logs → result ≡ number_in (time_out_of channels logs) }
        ensures responses { (d : Description) (channels : List ChannelSettings) (logs : ℕ → Log) →
            BankStands d channels self.old logs → outbox.new.items ≡
            outbox.old.items ++ frames_at (time_out_of channels logs) }
        ensures stands { (d : Description) (channels : List ChannelSettings) (logs : ℕ → Log) →
            BankStands d channels self.old logs →
            BankStands d channels self.new (logs_after (time_out_of channels logs) logs) }
    {
        match expired_place(&self.channels) {
            Some(place) => {
                let expired = &mut self.channels[place];
                expired.channel.time_out(outbox);
                Some(expired.number)
            }
            None => None,
        }
    }

    /// During this many ticks (1 ms each) no transfer times out, if nothing else happens: a lower
    /// bound.
    pub fn idle(&self) -> u32
        ensures { (d : Description) (channels : List ChannelSettings) (logs : ℕ → Log) (n : ℕ) →
            BankStands d channels self.now logs → n ≤ result → NoTimeOutFor channels n logs }
    {
        let channels: &[NumberedChannel] = &self.channels;
        idle_among(channels)
    }

    /// Drops the open transfer of every channel, without an abort.
    pub fn drop_transfers(&mut self)
        ensures settings { all_settings self.new ≡ all_settings self.old }
        ensures stands { (d : Description) (channels : List ChannelSettings) (logs : ℕ → Log) →
            BankStands d channels self.old logs →
            BankStands d channels self.new (with_each Dropped logs) }
    {
        drop_each(&mut self.channels);
    }

    /// How many bytes are held for the open transfer of the channel with a number; 0 if there is no
    /// such channel.
    pub fn held(&self, number: u8) -> usize
        ensures held { (d : Description) (channels : List ChannelSettings) (logs : ℕ → Log) →
            BankStands d channels self.now logs → result ≡ held_on channels logs number }
        ensures room { (d : Description) (channels : List ChannelSettings) (logs : ℕ → Log) →
            BankStands d channels self.now logs → result ≤ room_after d.rows (logs number) }
    {
        match place_of(&self.channels, number) {
            Some(place) => self.channels[place].channel.held(),
            None => 0,
        }
    }
}
