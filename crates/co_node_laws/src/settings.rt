//! The entries that errors and the data of RPDOs leave as they are. Each function is a law: a call
//! of it changes nothing.

ghost use Rattle.std.specs.Prelude.{List};
ghost use Rattle.co_dict.specs.Rows.{Contents, Rows};
ghost use Rattle.co_dict.specs.Stores.{Description};
ghost use Rattle.co_node_parts.specs.declared.rpdo_slots.KeptFrame.{KeptFrame};
ghost use Rattle.co_node_model.specs.Mappings.{AgreeOnMappings};
ghost use Rattle.co_node_model.specs.declared.device_error.DeviceError.{DeviceError};
ghost use Rattle.co_node_model.specs.Emergencies.{all_raised};
ghost use Rattle.co_node_model.specs.Rpdos.{after_data};
ghost use Rattle.co_node_laws.specs.Settings.{HasSameSettings};

use co_pdo::written_from_2000;

/// Errors that are raised, and data that take effect, leave the entries from 1004h to 1FFFh as they
/// are: the communication parameters of all services, and the mappings of PDOs.
pub fn settings_kept()
    ensures raised { (rows : Rows) (errors : List DeviceError) (contents : Contents) →
        HasSameSettings contents (all_raised rows errors contents) }
    ensures taken { (d : Description) (contents : Contents) (rpdo : KeptFrame) →
        HasSameSettings contents (after_data d contents rpdo) }
    ensures mappings { (contents others : Contents) → HasSameSettings contents others →
        AgreeOnMappings contents others }
{
    written_from_2000();
}
