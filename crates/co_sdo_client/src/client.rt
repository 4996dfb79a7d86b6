//! An SDO client.

ghost use Rattle.std.specs.Prelude.{◌≡◌, ◌+◌, ◌<◌, ◌≤◌, [], false, length, List, IfOk};
ghost use Rattle.co_sdo_client.specs.Calls.{Call, Download, Upload, Event};
ghost use Rattle.co_sdo_client.specs.Segments.{transfer_of};
ghost use Rattle.co_sdo_client.specs.Outcomes.{outcome, sent, result as value_of};
ghost use Rattle.co_sdo_client.specs.Standing.{ClientStands, IsReady, counted, shown_by};
ghost use Rattle.co_sdo_client.specs.declared.state.ClientState.TheVariants.{Waiting};

use crate::direction::Direction;
use crate::mode::Mode;
use crate::stage::Stage;
use crate::state::ClientState;
use crate::transfer::Transfer;
use co_frame::{BYTES_PER_SUB_BLOCK, Frame, Ids, Outbox};
use co_sdo_segments::Buffer;
use co_value::Key;
use std::alloc::{AllocError, Global};
use std::marker::Model;

/// An SDO client, which downloads or uploads one entry (CiA 301, 7.2.4.3).
#[derive(Drop)]
pub struct Client<'a> {
    pub(crate) ids: Ids,
    pub(crate) key: Key,
    pub(crate) mode: Mode,
    pub(crate) time: u16,
    pub(crate) direction: Direction,
    /// The bytes to download; empty for an upload.
    pub(crate) bytes: &'a [u8],
    pub(crate) buffer: Buffer,
    pub(crate) begun: bool,
    pub(crate) state: ClientState,
    pub(crate) stage: Stage,
    pub(crate) left: u16,
    pub(crate) sent: u64,
}

impl<'a> Model for Client<'a> {
    ghost use Rattle.std.specs.Prelude.{◌<◌};
    ghost use Rattle.co_sdo_client.specs.Standing.{Standing};
    ghost use Rattle.co_sdo_client.specs.Fields.{call_of, IsFit};

    ghost Value = { Standing };

    ghost view = { λ c. record {
      request = c.ids.request;
      answer = c.ids.answer;
      call = call_of c.key c.mode c.time c.direction c.bytes.now;
      begun = c.begun;
      state = c.state;
      stage = c.stage;
      held = c.buffer.bytes;
      left = c.left;
      sent = c.sent;
    } };

    ghost invariant = { λ c. (c.ids.request < 2048) × IsFit (call_of c.key c.mode c.time
        c.direction c.bytes.now) c.bytes.now c.stage c.buffer.bytes c.buffer.room };
}

impl<'a> Client<'a> {
    /// A client that downloads bytes, at most 65,535, to an entry. Their number is indicated at
    /// initiate if `tell_size`. `time` is the SDO timeout for an answer, in ms; 0 disables it. It
    /// allocates no memory.
    pub fn download(
        ids: Ids,
        key: Key,
        bytes: &'a [u8],
        mode: Mode,
        tell_size: bool,
        time: u16,
    ) -> Client<'a>
        requires request { ids.request < 2048 }
        requires len { length bytes.now ≤ 65535 }
        ensures request { result.request ≡ ids.request }
        ensures answer { result.answer ≡ ids.answer }
        ensures ready { IsReady (record {
          key = key;
          mode = mode;
          time = time;
          job = Download bytes.now tell_size;
        }) result }
    {
        Client {
            ids,
            key,
            mode,
            time,
            direction: Direction::Download { tell_size },
            bytes,
            buffer: Buffer::none(),
            begun: false,
            state: ClientState::Waiting,
            stage: Stage::Begun,
            left: time,
            sent: 0,
        }
    }

    /// A client that uploads the value of an entry, of at most `cap` bytes. It allocates a buffer
    /// of `cap` bytes; in block mode of 889 more, a sub-block of 127 segments of 7 bytes.
    /// `AllocError` if the buffer can't be allocated. `time` is the SDO timeout for an answer, in
    /// ms; 0 disables it.
    pub fn upload(
        alloc: Global,
        ids: Ids,
        key: Key,
        cap: u16,
        mode: Mode,
        time: u16,
    ) -> Result<Client<'a>, AllocError>
        requires request { ids.request < 2048 }
        ensures request { IfOk result (λ client. client.request ≡ ids.request) }
        ensures answer { IfOk result (λ client. client.answer ≡ ids.answer) }
        ensures ready { IfOk result (IsReady (record {
          key = key;
          mode = mode;
          time = time;
          job = Upload cap;
        })) }
    {
        let room = match mode {
            Mode::Block => usize::from(cap) + BYTES_PER_SUB_BLOCK,
            _ => usize::from(cap),
        };
        Ok(Client {
            ids,
            key,
            mode,
            time,
            direction: Direction::Upload { cap },
            bytes: &[],
            buffer: Buffer::with_room(alloc, room)?,
            begun: false,
            state: ClientState::Waiting,
            stage: Stage::Begun,
            left: time,
            sent: 0,
        })
    }

    /// The protocol that carries the bytes.
    pub(crate) fn transfer(&self) -> Transfer
        ensures { result ≡ transfer_of self.now.call }
    {
        match self.direction {
            Direction::Upload { cap: _ } => match self.mode {
                Mode::Block => Transfer::BlockUpload,
                _ => Transfer::SegmentedUpload,
            },
            Direction::Download { tell_size: _ } => match self.mode {
                Mode::Block => Transfer::BlockDownload,
                Mode::Segmented => Transfer::SegmentedDownload,
                Mode::Plain => {
                    if 1 <= self.bytes.len() && self.bytes.len() <= 4 {
                        Transfer::ExpeditedDownload
                    } else {
                        Transfer::SegmentedDownload
                    }
                }
            },
        }
    }

    /// The state of the transfer.
    pub fn state(&self) -> ClientState
        ensures shown { result ≡ self.now.state }
        ensures ready { (call : Call) → IsReady call self.now → result ≡ Waiting }
        ensures state { (call : Call) (events : List Event) → ClientStands call events self.now →
            result ≡ outcome call events }
    {
        self.state
    }

    /// How many frames the client has sent, aborts included. The count saturates at 2^64 - 1.
    pub fn sent(&self) -> u64
        ensures shown { result ≡ self.now.sent }
        ensures sent { (call : Call) (events : List Event) → ClientStands call events self.now →
            result ≡ counted (sent call events) }
    {
        self.sent
    }

    /// The bytes of an upload that is done; empty before, and for a download.
    pub fn result(&self) -> &[u8]
        ensures shown { result.now ≡ shown_by self.now.state self.now.held }
        ensures value { (call : Call) (events : List Event) → ClientStands call events self.now →
            result.now ≡ value_of call events }
    {
        match self.state {
            ClientState::Done => self.buffer.as_slice(),
            _ => &[],
        }
    }
}
