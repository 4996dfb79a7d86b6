//! A law of what the entries of PDOs have.

ghost use Rattle.std.specs.Prelude.{◌≡◌, ℕ, true, List};
ghost use Rattle.conode_explain_entries.specs.Tables.{Happening, state_after, shown_in, is_followed_in, table_after};

/// For each PDO that is followed, the table has what all events of its node make of its entries.
/// Every PDO is followed as long as there is room. This is a law: a call of it changes nothing.
pub fn what_is_shown()
    ensures { (log : List Happening) (interface : List ℕ) (node index : ℕ)
        → is_followed_in (table_after log) interface node index ≡ true
        → shown_in (table_after log) interface node index ≡ state_after log interface node index }
{}
