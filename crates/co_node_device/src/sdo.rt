//! The SDO server: frames to the channels of a device, their ticks, and drops of their transfers
//! (CiA 301, 7.2.4).

ghost use Rattle.std.specs.Prelude.{◌≡◌, ◌+◌, ◌≤◌, ◌++◌, ℕ, List, false, ◌||◌, if◌then◌else◌};
ghost use Rattle.arrayvec.specs.ArrayVec.{array_vec_len};
ghost use Rattle.co_frame.specs.Outboxes.{HasRoomFor};
ghost use Rattle.co_frame.specs.SegmentSizes.{segments_per_sub_block};
ghost use Rattle.co_dict.specs.Stores.{Description};
ghost use Rattle.co_sdo.specs.Log.{Log, Ticked};
ghost use Rattle.co_sdo.specs.Banks.{BankStands, all_settings};
ghost use Rattle.co_sdo.specs.Channels.{ChannelSettings, HaveRoom};
ghost use Rattle.co_sdo.specs.Events.{frames_at, logs_after, time_out_of, with_each};
ghost use Rattle.co_node_model.specs.declared.address.Address.TheVariants.{Channel};
ghost use Rattle.co_node_model.specs.Moments.{Constants, History};
ghost use Rattle.co_node_device.specs.Befores.{IsBefore};
ghost use Rattle.co_node_device.specs.Receiving.{IsFrameReceived, frame_moment, may_be_due, tick_mark};
ghost use Rattle.co_node_parts.specs.NmtStates.{enters};
ghost use Rattle.co_node_parts.specs.declared.nmt_state.NodeState.TheVariants.{Stopped};
ghost use Rattle.co_node_model.specs.Nmt.{is_reset};
ghost use Rattle.co_node_model.specs.Sdo.{with_drop};
ghost use Rattle.co_node_model.specs.Inputs.{Ticked};
ghost use Rattle.co_node_model.specs.Marks.{marked_time_out};
ghost use Rattle.co_frame.specs.FrameContent.{FrameContent};
ghost use Rattle.co_dict_placed.specs.Changes.{with_keys};
ghost use Rattle.co_node_device.specs.Given.{given_view};
ghost use Rattle.co_node_device.specs.SetEntries.{set_by_request};

use crate::given::Given;
use co_dict::ObjectStore;
use co_dict_placed::note_key;
use co_frame::{Frame, Outbox};
use co_node_model::Mark;
use co_node_parts::{NodeState, Transition};
use co_sdo::Bank;

/// A frame to an SDO channel: it is ignored while the device is stopped (CiA 301, 7.2.4).
#[inline(always)]
pub(crate) fn take_request<S: ObjectStore>(
    store: &mut S,
    bank: &mut Bank,
    state: NodeState,
    frame: &Frame,
    outbox: &mut Outbox,
) -> Mark
    requires outbox { HasRoomFor segments_per_sub_block outbox.old }
    requires room { HaveRoom (S.description store.old).rows (all_settings bank.old) }
    ensures few { array_vec_len outbox.new ≤ array_vec_len outbox.old + segments_per_sub_block }
    ensures settings { all_settings bank.new ≡ all_settings bank.old }
    ensures description { S.description store.new ≡ S.description store.old }
    ensures alone { may_be_due result ≡ false }
    ensures received { (k : Constants) (history : History) (number : ℕ) →
        IsBefore k history (S.description store.old) (S.contents store.old) bank.old state →
        IsFrameReceived (S.description store.old) k history
        (frame_moment k history (Channel number) frame.now) result (S.contents store.new)
        outbox.old.items outbox.new.items bank.new }
{
    if state == NodeState::Stopped {
        return Mark::Quiet;
    }
    let set = bank.take(store, frame, outbox);
    Mark::of_write(set)
}

/// Notes the entry that an input set by SDO, by its mark, if it set one.
#[inline(always)]
pub(crate) fn note_download<S: ObjectStore>(
    store: &S,
    given: Given<'_>,
    mark: &Mark,
    changes: &mut [u8],
)
    ensures { (frame : FrameContent) → changes.new ≡ with_keys (S.description store.now)
        (set_by_request (given_view given.entry frame) mark.now) changes.old }
{
    match given {
        Given::Frame => {
            if let Some(key) = mark.written() {
                note_key(store, key, changes);
            }
        }
        Given::Tick | Given::App(_) | Given::WriteAt(..) => {}
    }
}

/// 1 ms elapsed: the lowest SDO channel that has timed out aborts its transfer.
#[inline(always)]
pub(crate) fn take_tick(bank: &mut Bank, outbox: &mut Outbox) -> Mark
    requires { HasRoomFor 1 outbox.old }
    ensures few { array_vec_len outbox.new ≤
        array_vec_len outbox.old + (if marked_time_out result then 1 else 0) }
    ensures settings { all_settings bank.new ≡ all_settings bank.old }
    ensures mark { (d : Description) (channels : List ChannelSettings) (logs : ℕ → Log) →
        BankStands d channels bank.old logs →
        result ≡ tick_mark (time_out_of channels (with_each Ticked logs)) }
    ensures frames { (d : Description) (channels : List ChannelSettings) (logs : ℕ → Log) →
        BankStands d channels bank.old logs → outbox.new.items ≡
        outbox.old.items ++ frames_at (time_out_of channels (with_each Ticked logs)) }
    ensures channels { (d : Description) (channels : List ChannelSettings) (logs : ℕ → Log) →
        BankStands d channels bank.old logs → BankStands d channels bank.new (logs_after
        (time_out_of channels (with_each Ticked logs)) (with_each Ticked logs)) }
{
    let timed_out = bank.tick(outbox);
    Mark::Tick(timed_out.is_some())
}

/// Whether the transfers of all SDO channels are dropped: at a reset, and on entering stopped.
pub(crate) fn drops(mark: &Mark, transition: Transition) -> bool
    ensures { result ≡ is_reset mark.now || enters Stopped transition }
{
    mark.is_reset() || transition.enters(NodeState::Stopped)
}

/// Drops the transfers of all SDO channels, if `drops`.
pub(crate) fn drop_if(bank: &mut Bank, drops: bool)
    ensures settings { all_settings bank.new ≡ all_settings bank.old }
    ensures stands { (d : Description) (channels : List ChannelSettings) (logs : ℕ → Log) →
        BankStands d channels bank.old logs →
        BankStands d channels bank.new (with_drop drops logs) }
{
    if drops {
        bank.drop_transfers();
    }
}
