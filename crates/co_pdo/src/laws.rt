//! Laws of PDOs: a call of one changes nothing.

ghost use Rattle.std.specs.Prelude.{◌≡◌, ◌<◌, ℕ, List, true};
ghost use Rattle.co_value.specs.declared.key.Key.{Key};
ghost use Rattle.co_dict.specs.declared.side.Side.{Side};
ghost use Rattle.co_dict.specs.Rows.{Contents, number_at};
ghost use Rattle.co_dict.specs.Stores.{Description};
ghost use Rattle.co_pdo.specs.Mappings.{has_pdo, mapping_of};
ghost use Rattle.co_pdo.specs.Pdos.{is_pdo_active};
ghost use Rattle.co_pdo.specs.Images.{contents_after};
ghost use Rattle.co_pdo.specs.Tpdos.{tpdo_key, tpdo_count_key, settings_of};

use co_dict::ObjectStore;

/// The settings of TPDO k depend on six numbers of the dictionary: sub-indices 1, 2, 3, 5 and 6 of
/// its communication parameter, and the number of mapped objects.
pub fn settings_by_numbers()
    ensures { (c e : Contents) (k : ℕ) →
        number_at c (tpdo_key k 1) ≡ number_at e (tpdo_key k 1) →
        number_at c (tpdo_key k 2) ≡ number_at e (tpdo_key k 2) →
        number_at c (tpdo_key k 3) ≡ number_at e (tpdo_key k 3) →
        number_at c (tpdo_key k 5) ≡ number_at e (tpdo_key k 5) →
        number_at c (tpdo_key k 6) ≡ number_at e (tpdo_key k 6) →
        number_at c (tpdo_count_key k) ≡ number_at e (tpdo_count_key k) →
        settings_of c k ≡ settings_of e k }
{}

/// Every active PDO exists in the dictionary.
pub fn active_is_there<S: ObjectStore>(store: &S)
    ensures { (side : Side) (k : ℕ) → is_pdo_active side (S.contents store.now) k ≡ true →
        has_pdo side (S.description store.now).rows k ≡ true }
{}

/// The data of an RPDO change no entry below 2000h.
pub fn written_from_2000()
    ensures { (d : Description) (c : Contents) (k : ℕ) (bytes : List ℕ) (key : Key) →
        key.index < 0x2000 →
        contents_after d.rows (mapping_of Side.Rpdo d c k) bytes c key ≡ c key }
{}
