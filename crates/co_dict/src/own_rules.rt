//! The rules that entries of the communication profile have of their own.

ghost use Rattle.std.specs.Prelude.{◌≡◌, true, length};
ghost use Rattle.co_dict.specs.Rows.{takes};
ghost use Rattle.co_dict.specs.Refusals.{refusal_in};
ghost use Rattle.co_dict.specs.ErrorField.{error_count_refusal};
ghost use Rattle.co_dict.specs.OwnRules.{counter_overflow_refusal, error_behaviour_refusal, own_refusal};

use crate::cob_id::CobId;
use crate::cob_id_rules::{check_cob_id, check_sync_cob_id};
use crate::consumer_heartbeats::{HeartbeatConsumer, check_consumer};
use crate::mapping_words::MappingWord;
use crate::numbers::{byte_for, word_for};
use crate::own_rule::OwnRule;
use crate::pdo_rules::{
    check_inhibit_time, check_mapping_count, check_mapping_entry, check_sync_start,
    check_transmission_type,
};
use crate::store::ObjectStore;
use co_frame_aborts::AbortCode;
use co_profile::TransmissionType;
use co_value::Key;

// 1003:00, the number of errors: 0 alone
fn check_error_count(count: u8) -> Result<(), AbortCode>
    ensures { refusal_in result ≡ error_count_refusal count }
{
    if count == 0 {
        Ok(())
    } else {
        Err(AbortCode::INVALID_VALUE)
    }
}

// 1019:00, the synchronous counter overflow value: 0 or 2 to 240
fn check_counter_overflow(value: u8) -> Result<(), AbortCode>
    ensures { refusal_in result ≡ counter_overflow_refusal value }
{
    if value == 1 || value > 240 {
        Err(AbortCode::INVALID_VALUE)
    } else {
        Ok(())
    }
}

// 1029:01, what a communication error does to the state: 0 to 2
fn check_error_behaviour(value: u8) -> Result<(), AbortCode>
    ensures { refusal_in result ≡ error_behaviour_refusal value }
{
    if value > 2 {
        Err(AbortCode::INVALID_VALUE)
    } else {
        Ok(())
    }
}

// whether bytes that fit the entry keep its own rule
pub(crate) fn check_own_rule<S: ObjectStore>(
    store: &S,
    key: Key,
    bytes: &[u8],
) -> Result<(), AbortCode>
    requires { takes (S.description store.now).rows key (length bytes.now) ≡ true }
    ensures { refusal_in result
        ≡ own_refusal (S.description store.now) (S.contents store.now) key bytes.now }
{
    let Some(rule) = OwnRule::of(key) else {
        return Ok(());
    };
    match rule {
        OwnRule::ErrorCount => check_error_count(byte_for(store, key, bytes)),
        OwnRule::SyncCobId => check_sync_cob_id(store, CobId(word_for(store, key, bytes))),
        OwnRule::StoredParameters => Err(AbortCode::NOT_STORABLE),
        OwnRule::CobId => check_cob_id(store, key, CobId(word_for(store, key, bytes))),
        OwnRule::ConsumerHeartbeat => check_consumer(
            store,
            key.sub,
            HeartbeatConsumer(word_for(store, key, bytes)),
        ),
        OwnRule::SyncCounterOverflow => check_counter_overflow(byte_for(store, key, bytes)),
        OwnRule::ErrorBehaviour => check_error_behaviour(byte_for(store, key, bytes)),
        OwnRule::TransmissionType => {
            check_transmission_type(TransmissionType(byte_for(store, key, bytes)))
        }
        OwnRule::InhibitTime => check_inhibit_time(store, key.index),
        OwnRule::SyncStartValue => {
            check_sync_start(store, key.index, byte_for(store, key, bytes))
        }
        OwnRule::MappingCount(side) => check_mapping_count(
            store,
            side,
            key.index,
            byte_for(store, key, bytes),
        ),
        OwnRule::MappingEntry(side) => check_mapping_entry(
            store,
            side,
            key.index,
            MappingWord(word_for(store, key, bytes)),
        ),
    }
}
