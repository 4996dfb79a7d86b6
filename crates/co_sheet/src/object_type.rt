//! The object types by their codes.

ghost use Rattle.std.specs.Prelude.{◌≡◌};
ghost use Rattle.co_sheet.specs.Entries.{object_type_with};

use co_sheet_rows::ObjectType;

/// The object type with this code (CiA 301, object codes); `None` for every other code.
pub(crate) fn object_type_with(code: u64) -> Option<ObjectType>
    ensures { result ≡ object_type_with code }
{
    match code {
        2 => Some(ObjectType::Domain),
        7 => Some(ObjectType::Var),
        8 => Some(ObjectType::Array),
        9 => Some(ObjectType::Record),
        _ => None,
    }
}
