//! 1016h, the consumer heartbeat time.

ghost use Rattle.std.specs.Prelude.{◌≡◌, ◌≤◌, ◌<◌};
ghost use Rattle.co_dict.specs.Rows.{number_at};
ghost use Rattle.co_dict.specs.Refusals.{refusal_in};
ghost use Rattle.co_dict.specs.ConsumerHeartbeats.{
  consumer_key,
  consumer_time,
  consumer_node,
  is_consumer,
  is_consumer_of,
  is_consumed_elsewhere,
  consumer_refusal,
};

use crate::numbers::number_u32;
use crate::store::ObjectStore;
use co_frame_aborts::AbortCode;
use co_profile::CONSUMER_HEARTBEAT;
use co_value::Key;

/// An entry of 1016h: a node-ID in bits 23 to 16, the time in ms in bits 15 to 0
/// (CiA 301, 7.5.2.19).
#[derive(Clone, Copy)]
pub struct HeartbeatConsumer(pub u32);

impl HeartbeatConsumer {
    /// The time in ms.
    pub fn time(self) -> u16
        ensures { result ≡ consumer_time self.0 }
    {
        (self.0 % 0x1_0000) as u16
    }

    /// The node-ID whose heartbeat is consumed.
    pub fn node(self) -> u8
        ensures { result ≡ consumer_node self.0 }
    {
        (self.0 / 0x1_0000 % 0x100) as u8
    }

    /// Whether the entry is used: its time is above 0 and its node-ID is 1 to 127.
    pub fn is_used(self) -> bool
        ensures { result ≡ is_consumer self.0 }
    {
        self.time() > 0 && 1 <= self.node() && self.node() <= 127
    }

    fn is_used_of(self, node: u8) -> bool
        ensures { result ≡ is_consumer_of node self.0 }
    {
        self.is_used() && self.node() == node
    }
}

/// The entry 1016h at a sub-index, 1 to 127; 0 where there is none.
pub fn heartbeat_consumer<S: ObjectStore>(store: &S, sub: u8) -> HeartbeatConsumer
    requires first { 1 ≤ sub }
    requires last { sub ≤ 127 }
    ensures { result.0 ≡ number_at (S.contents store.now) (consumer_key sub) }
{
    HeartbeatConsumer(number_u32(
        store,
        Key {
            index: CONSUMER_HEARTBEAT,
            sub,
        },
    ))
}

// whether another sub-index is used with the node-ID
#[tactic(auto, unfolding(crate::specs::ConsumerHeartbeats::is_consumed_elsewhere))]
fn is_consumed_elsewhere<S: ObjectStore>(store: &S, sub: u8, node: u8) -> bool
    ensures { result ≡ is_consumed_elsewhere (S.contents store.now) sub node }
{
    (1..128u8).any(|other| other != sub && heartbeat_consumer(store, other).is_used_of(node))
}

// 1016:01 to 7F: no node-ID is used twice
pub(crate) fn check_consumer<S: ObjectStore>(
    store: &S,
    sub: u8,
    word: HeartbeatConsumer,
) -> Result<(), AbortCode>
    ensures { refusal_in result ≡ consumer_refusal (S.contents store.now) sub word.0 }
{
    if word.is_used() && is_consumed_elsewhere(store, sub, word.node()) {
        return Err(AbortCode::PARAMETER_INCOMPATIBLE);
    }
    Ok(())
}
