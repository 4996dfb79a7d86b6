//! Laws that follow from the definitions of a device, for every device and all its inputs. This
//! crate has no code of a device.
#![tactic(auto)]

mod answers;
mod by_kind;
mod changes;
mod distances;
mod downloads;
mod held;
mod identifiers;
mod idle;
mod kinds;
mod lengths;
mod pdos;
mod rpdos;
mod schedule;
mod settings;

pub use answers::{
    event_answer, no_answer_to_frames, no_answer_to_ticks, reset_restores_area,
    reset_sends_boot_up_alone,
};
pub use by_kind::{
    device_by_kind, heartbeat_of_another, inert_input, nothing_while_stopped, state_by_kind,
};
pub use changes::{changes_by_event, changes_by_request};
pub use distances::{emergency_sent, heartbeat_due, heartbeat_lost};
pub use downloads::segmented_download_ends;
pub use held::held_within_room;
pub use identifiers::stays_apart;
pub use idle::quiet_ticks;
pub use kinds::{changes_by_command, changes_by_kind, changes_by_reset, set_exactly};
pub use lengths::{few, few_responses, few_unanswered, greatest_bound};
pub use pdos::{takes_effect_at_sync, tpdo_due};
pub use rpdos::{addresses_kept, mappings_kept};
pub use schedule::{schedule_current, schedule_ready};
pub use settings::settings_kept;
