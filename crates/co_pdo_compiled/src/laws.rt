//! Laws of compiled mappings: a call of one changes nothing.

ghost use Rattle.std.specs.Prelude.{◌≡◌, ℕ, List};
ghost use Rattle.co_value.specs.declared.key.Key.{Key};
ghost use Rattle.co_dict.specs.declared.side.Side.{Side};
ghost use Rattle.co_dict.specs.Rows.{Contents};
ghost use Rattle.co_dict.specs.Stores.{Description};
ghost use Rattle.co_dict.specs.Places.{place_of};
ghost use Rattle.co_pdo.specs.declared.mapping.Mapped.{Mapped};
ghost use Rattle.co_pdo.specs.Mappings.{mapping_of};
ghost use Rattle.co_pdo_compiled.specs.declared.part.Part.{Part};
ghost use Rattle.co_pdo_compiled.specs.CompiledMappings.{HasParts, IsCompiledForm, AgreeOnMapping};

/// A compiled mapping needs rows and places alone, which no call of a store changes. So it stays
/// valid after each `set`, `set_at` and `reset`, and on every other store with the same rows and
/// places.
pub fn compiled_stays()
    ensures parts { (d e : Description) (parts : List Part) →
        ((key : Key) → d.rows key ≡ e.rows key) → ((key : Key) → place_of d key ≡ place_of e key) →
        HasParts d parts → HasParts e parts }
    ensures form { (d e : Description) (mapping : List Mapped) (parts : List Part) →
        ((key : Key) → d.rows key ≡ e.rows key) → ((key : Key) → place_of d key ≡ place_of e key) →
        IsCompiledForm d mapping parts → IsCompiledForm e mapping parts }
{}

/// The mapping of a PDO depends on its mapping parameter alone, 1600h + k or 1A00h + k. So it is
/// enough to compile it again after a write of one of these entries, and after a reset.
pub fn mapping_by_words()
    ensures { (side : Side) (d : Description) (contents others : Contents) (k : ℕ) →
        AgreeOnMapping side k contents others →
        mapping_of side d contents k ≡ mapping_of side d others k }
{}
