//! Adding warnings to those that are found.

ghost use Rattle.std.specs.Prelude.{◌≡◌, ◌++◌, ℕ, List, flat_map, option_to_list, OnOk};
ghost use Rattle.co_sheet_text_warnings.specs.Places.{warnings_at};

use crate::warning::{Warning, WarningKind};
use std::alloc::AllocError;

/// Adds a warning of a kind at a line, if there is one. `Err`: out of memory.
pub fn add_one(
    warnings: &mut Vec<Warning>,
    kind: WarningKind,
    found: Option<usize>,
) -> Result<(), AllocError>
    ensures { (lines : List ℕ) → option_to_list found ≡ lines →
        OnOk result (warnings.new.items ≡ warnings.old.items ++ warnings_at kind lines) }
{
    let Some(line) = found else {
        return Ok(());
    };
    attempt_in_memory!(warnings.push(Warning { kind, line }));
    Ok(())
}

/// Adds warnings of a kind at the lines that are there. `Err`: out of memory.
pub fn add_each(
    warnings: &mut Vec<Warning>,
    kind: WarningKind,
    found: &[Option<usize>],
) -> Result<(), AllocError>
    ensures { OnOk result (warnings.new.items
        ≡ warnings.old.items ++ warnings_at kind (flat_map option_to_list found.now)) }
{
    for line in found {
        attempt!(add_one(warnings, kind, *line));
    }
    Ok(())
}
