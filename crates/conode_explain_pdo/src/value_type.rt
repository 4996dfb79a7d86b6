//! The data types of the values of a sheet's entries.

ghost use Rattle.std.specs.Prelude.{◌≡◌};
ghost use Rattle.co_sheet.specs.SheetViews.{row_view};
ghost use Rattle.co_sheet_changes.specs.Names.{names_view};
ghost use Rattle.conode_explain_pdo.specs.Types.{type_in};

use co_sheet::EntryRow;
use co_sheet_changes::Names;
use conode_explain_values::ValueType;

/// The data type of an entry's values: its original one, where its sheet was adapted
/// (`OriginalDataType`), else that of the sheet.
pub fn type_in(names: Names<'_, '_>, row: &EntryRow<'_>) -> ValueType
    ensures value_type { result ≡ type_in (names_view names.entry) (row_view row.now) }
{
    ValueType::of(names.original(row), row.data_type)
}
