//! The names of data types.

ghost use Rattle.std.specs.Prelude.{◌≡◌};
ghost use Rattle.std.specs.Option.{option_copied};
ghost use Rattle.conode_show_text.specs.Entries.{type_name, type_names};
ghost use Rattle.conode_show_text.specs.Names.{name_among};
ghost use Rattle.conode_show_text.specs.Phrases.{piece_text};

use crate::names::name_among;
use crate::phrase::Piece;

/// Data types by their codes (CiA 301, 7.4.7.1).
const TYPE_NAMES: [(u64, &str); 25] = [
    (0x01, "BOOLEAN"),
    (0x02, "INTEGER8"),
    (0x03, "INTEGER16"),
    (0x04, "INTEGER32"),
    (0x05, "UNSIGNED8"),
    (0x06, "UNSIGNED16"),
    (0x07, "UNSIGNED32"),
    (0x08, "REAL32"),
    (0x09, "VISIBLE_STRING"),
    (0x0A, "OCTET_STRING"),
    (0x0B, "UNICODE_STRING"),
    (0x0C, "TIME_OF_DAY"),
    (0x0D, "TIME_DIFFERENCE"),
    (0x0F, "DOMAIN"),
    (0x10, "INTEGER24"),
    (0x11, "REAL64"),
    (0x12, "INTEGER40"),
    (0x13, "INTEGER48"),
    (0x14, "INTEGER56"),
    (0x15, "INTEGER64"),
    (0x16, "UNSIGNED24"),
    (0x18, "UNSIGNED40"),
    (0x19, "UNSIGNED48"),
    (0x1A, "UNSIGNED56"),
    (0x1B, "UNSIGNED64"),
];

fn known_name(code: u64) -> Option<&'static str>
    ensures { option_copied result ≡ name_among code type_names }
{
    name_among(code, &TYPE_NAMES)
}

/// The name of a data type, or its number if the code has no name.
#[tactic(auto, unfolding(crate::specs::Entries::type_name))]
pub(crate) fn type_name(code: u64) -> Piece<'static>
    ensures { piece_text result ≡ type_name code }
{
    match known_name(code) {
        Some(name) => Piece::Words(name),
        None => Piece::TypeCode(code),
    }
}
