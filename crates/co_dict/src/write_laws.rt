//! What follows from a write that is not refused.

ghost use Rattle.std.specs.Prelude.{◌≡◌, ◌<◌, ℕ, List, Option, None, false};
ghost use Rattle.co_value.specs.declared.key.Key.{Key};
ghost use Rattle.co_profile.specs.Indices.{nth, tpdo_communication, tpdo_mapping};
ghost use Rattle.co_dict.specs.Rows.{Contents};
ghost use Rattle.co_dict.specs.Stores.{Description};
ghost use Rattle.co_dict.specs.PdoRules.{is_pdo_valid};
ghost use Rattle.co_dict.specs.OwnRules.{own_refusal};
ghost use Rattle.co_dict.specs.WriteRefusals.{writing_refusal, app_refusal};

/// Bytes that SDO may write, or that the application may write, keep the own rule of their entry.
/// This is a law: a call of it changes nothing.
pub fn own_rule_law()
    ensures by_sdo { (d : Description) (contents : Contents) (key : Key) (indicated : Option ℕ)
        (bytes : List ℕ) → writing_refusal d contents key indicated bytes ≡ None
        → own_refusal d contents key bytes ≡ None }
    ensures by_application { (d : Description) (contents : Contents) (key : Key) (bytes : List ℕ)
        → app_refusal d contents key bytes ≡ None → own_refusal d contents key bytes ≡ None }
{}

/// A TPDO whose inhibit time or number of mapped objects may be written is not valid. This is a
/// law: a call of it changes nothing.
pub fn invalid_pdo_law()
    ensures inhibit_time { (d : Description) (contents : Contents) (k : ℕ) (bytes : List ℕ)
        → k < 512
        → own_refusal d contents (record { index = nth tpdo_communication k; sub = 3 }) bytes ≡ None
        → is_pdo_valid contents (nth tpdo_communication k) ≡ false }
    ensures mapping { (d : Description) (contents : Contents) (k : ℕ) (bytes : List ℕ) → k < 512
        → own_refusal d contents (record { index = nth tpdo_mapping k; sub = 0 }) bytes ≡ None
        → is_pdo_valid contents (nth tpdo_communication k) ≡ false }
{}
