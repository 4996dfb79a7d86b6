//! Laws about what is found in a text.

ghost use Rattle.std.specs.Prelude.{◌≡◌, ℕ, List, Contains, Some, None, not};
ghost use Rattle.co_sheet_rows.specs.declared.fault.SheetFault.{SheetFault as Fault};
ghost use Rattle.co_sheet.specs.Accepted.{first_fault};
ghost use Rattle.co_dict_build.specs.Capacities.{limits_view};
ghost use Rattle.conode_lint_marks.specs.declared.mark.Mark.{Mark};
ghost use Rattle.conode_lint.specs.declared.marks.Checks.{Checks as Asked};
ghost use Rattle.conode_lint.specs.Formats.{found_format};
ghost use Rattle.co_sheet_text_warnings.specs.Lines.{text_lines};
ghost use Rattle.conode_lint.specs.Linted.{has_error, is_good};
ghost use Rattle.conode_lint.specs.Marks.{IsFound, fault_mark};

use co_dict_faults::{all_build_faults, mapping_reasons};
use co_sheet_faults::all_faults;

/// What is found in a text has an error exactly if the text has a fault as a sheet, or its build
/// has one, for the given node-ID or else its own. Unless the text is of another format, its first
/// fault, which `co_sheet::read` returns, is among what is found. This is a law: a call of it
/// changes nothing.
pub fn linted_texts()
    ensures error { (text : List ℕ) (checks : Asked) (found : List Mark) →
        IsFound text checks found →
        has_error found ≡ not (is_good text checks.node (limits_view checks.limits)) }
    ensures first { (text : List ℕ) (checks : Asked) (found : List Mark) (fault : Fault) →
        IsFound text checks found → first_fault text ≡ Some fault →
        found_format (text_lines text) ≡ None → Contains found (fault_mark fault) }
{
    all_faults();
    all_build_faults();
    mapping_reasons();
}
