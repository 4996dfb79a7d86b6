//! How a client sends its requests.

ghost use Rattle.std.specs.Prelude.{◌≡◌, ◌+◌, ◌<◌, ◌≤◌, ◌++◌, [], ◌∷◌};
ghost use Rattle.arrayvec.specs.ArrayVec.{array_vec_len};
ghost use Rattle.co_value.specs.Keys.{same_key};
ghost use Rattle.co_frame.specs.SegmentSizes.{segments_per_sub_block};
ghost use Rattle.co_frame.specs.Outboxes.{HasRoomFor};
ghost use Rattle.co_frame.specs.SdoRequests.{IsSdoRequest};
ghost use Rattle.co_sdo_client.specs.Calls.{Request, frames_on};
ghost use Rattle.co_sdo_client.specs.Verdicts.{GivesUp};
ghost use Rattle.co_sdo_client.specs.Outcomes.{messages_by};
ghost use Rattle.co_sdo_client.specs.Standing.{counted};
ghost use Rattle.co_sdo_client.specs.declared.state.ClientState.TheVariants.{Failed};

use crate::client::Client;
use crate::state::ClientState;
use co_frame::{AbortCode, Outbox, SdoRequest};
use co_value::Key;

impl<'a> Client<'a> {
    // Sends a request.
    pub(crate) fn send(&mut self, request: SdoRequest, outbox: &mut Outbox)
        requires room { HasRoomFor 1 outbox.old }
        requires spellable { IsSdoRequest request }
        ensures few { array_vec_len outbox.new ≤ array_vec_len outbox.old + segments_per_sub_block }
        ensures messages { outbox.new.items ≡ outbox.old.items ++ frames_on self.old.request
            (Request request ∷ []) }
        ensures client { self.new ≡ record self.old { sent = counted (self.old.sent + 1) } }
    {
        outbox.push(request.write(self.ids.request));
        self.sent = self.sent.saturating_add(1);
    }

    // Aborts the transfer.
    pub(crate) fn give_up(&mut self, code: AbortCode, outbox: &mut Outbox)
        requires room { HasRoomFor 1 outbox.old }
        ensures few { array_vec_len outbox.new ≤ array_vec_len outbox.old + segments_per_sub_block }
        ensures messages { outbox.new.items ≡ outbox.old.items ++ frames_on self.old.request
            (messages_by self.old.call (GivesUp code.0)) }
        ensures client { self.new ≡ record self.old {
          state = Failed code;
          sent = counted (self.old.sent + 1);
        } }
    {
        self.state = ClientState::Failed(code);
        self.send(
            SdoRequest::Abort {
                key: self.key,
                code,
            },
            outbox,
        );
    }

    // Whether an answer has the client's key.
    pub(crate) fn has_key(&self, key: Key) -> bool
        ensures { result ≡ same_key key self.now.call.key }
    {
        key.comparisons(self.key).0
    }
}
