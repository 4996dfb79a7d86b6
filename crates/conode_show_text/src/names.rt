//! Names by their numbers.

ghost use Rattle.std.specs.Prelude.{◌≡◌, map};
ghost use Rattle.std.specs.Option.{option_copied};
ghost use Rattle.conode_show_text.specs.Names.{name_among, row_view};

/// The name of a number among these rows.
pub(crate) fn name_among(number: u64, rows: &[(u64, &'static str)]) -> Option<&'static str>
    ensures { option_copied result ≡ name_among number (map row_view rows.now) }
{
    for row in rows {
        if row.0 == number {
            return Some(row.1);
        }
    }
    None
}
