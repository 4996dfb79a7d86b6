//! The SDO channels of the device as a server.

ghost use Rattle.std.specs.Prelude.{◌≡◌, ◌<◌, ◌≤◌, is_some, IfSome};
ghost use Rattle.co_dict.specs.SdoChannels.{is_channel, request_id, answer_id, is_sdo_id};

use crate::cob_id::CobId;
use crate::numbers::number_u32;
use crate::store::{ObjectStore, store_laws};
use co_profile::IndexRange;
use co_value::Key;

/// The identifiers of an SDO channel (CiA 301, 7.5.2.33).
#[derive(Clone, Copy)]
pub struct SdoChannel {
    /// The identifier of requests, from client to server.
    pub request: u16,
    /// The identifier of answers, from server to client.
    pub answer: u16,
}

/// The SDO channel of a number, 0 to 127: channel 0 always exists, with 600h + node-ID and 580h +
/// node-ID; channel j exists where the COB-ID words 1200h + j, sub-index 1 and 2, are valid
/// (CiA 301, 7.5.2.33).
pub fn sdo_channel<S: ObjectStore>(store: &S, number: u8) -> Option<SdoChannel>
    requires { number ≤ 127 }
    ensures exists { is_some result ≡ is_channel (S.contents store.now) number }
    ensures request { IfSome result (λ channel. channel.request
        ≡ request_id (S.description store.now).node (S.contents store.now) number) }
    ensures answer { IfSome result (λ channel. channel.answer
        ≡ answer_id (S.description store.now).node (S.contents store.now) number) }
    ensures request_below { IfSome result (λ channel. channel.request < 0x800) }
    ensures answer_below { IfSome result (λ channel. channel.answer < 0x800) }
{
    if number == 0 {
        let node = u16::from(store.node_id());
        return Some(SdoChannel {
            request: 0x600 + node,
            answer: 0x580 + node,
        });
    }
    let index = IndexRange::SDO_SERVER.nth(u16::from(number));
    let request = CobId(number_u32(store, Key { index, sub: 1 }));
    let answer = CobId(number_u32(store, Key { index, sub: 2 }));
    if request.is_valid() && answer.is_valid() {
        Some(SdoChannel {
            request: request.identifier(),
            answer: answer.identifier(),
        })
    } else {
        None
    }
}

/// Whether an identifier is one of an SDO channel that exists.
#[tactic(auto, unfolding(crate::specs::SdoChannels::is_sdo_id))]
pub fn is_sdo_id<S: ObjectStore>(store: &S, identifier: u16) -> bool
    ensures { result ≡ is_sdo_id (S.description store.now).node (S.contents store.now) identifier }
{
    (0..128u8).any(|number| sdo_channel(store, number).is_some_and(|channel| identifier
        == channel.request
        || identifier == channel.answer))
}
