//! What the texts of services share.

ghost use Rattle.std.specs.Prelude.{◌≡◌, map};
ghost use Rattle.conode_explain_services.specs.Parts.{row_of, words_in, words_of};

/// A row of a table: a number and its words.
#[derive(Clone, Copy)]
pub(crate) struct Row(pub(crate) u16, pub(crate) &'static str);

fn words_of(rows: &[Row], number: u16) -> &'static str
    ensures { result.now ≡ words_of rows.now number }
{
    for row in rows {
        if row.0 == number {
            return row.1;
        }
    }
    ""
}

/// The words of a number in a table; empty where the table doesn't have it.
pub(crate) fn words_in(rows: &[Row], number: u16) -> &'static str
    ensures { result.now ≡ words_in (map row_of rows.now) number }
{
    words_of(rows, number)
}
