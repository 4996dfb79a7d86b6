//! Which findings are printed, if there are too many.

ghost use Rattle.std.specs.Prelude.{◌≡◌, ◌++◌, [], OnOk};
ghost use Rattle.std.specs.List.{flat_map};
ghost use Rattle.conode_lint.specs.Allowed.{error_count, error_of, is_error};
ghost use Rattle.conode_lint.specs.Linted.{most_severe, warning_of};
ghost use Rattle.conode_lint.specs.Marks.{IsByLine};

use crate::marks::put_by_line;
use crate::words::severity_of;
use conode_lint_marks::Mark;
use conode_lint_text::Severity;
use std::alloc::AllocError;

/// The most findings of a file that are printed.
pub(crate) const MOST: usize = 1000;

fn is_error(severity: Severity) -> bool
    ensures { result ≡ is_error severity }
{
    match severity {
        Severity::Error => true,
        Severity::Warning => false,
    }
}

/// How many of these marks are errors.
pub(crate) fn error_count(marks: &[Mark]) -> usize
    ensures { result ≡ error_count marks.now }
{
    let mut count = 0;
    for mark in marks {
        if is_error(severity_of(mark.subject)) {
            count += 1;
        }
    }
    count
}

// adds a mark if it is an error
fn add_error(errors: &mut Vec<Mark>, mark: Mark) -> Result<(), AllocError>
    ensures { OnOk result (errors.new.items ≡ errors.old.items ++ error_of mark) }
{
    if is_error(severity_of(mark.subject)) {
        attempt_in_memory!(errors.push(mark));
    }
    Ok(())
}

// adds a mark if it is none
fn add_warning(warnings: &mut Vec<Mark>, mark: Mark) -> Result<(), AllocError>
    ensures { OnOk result (warnings.new.items ≡ warnings.old.items ++ warning_of mark) }
{
    if !is_error(severity_of(mark.subject)) {
        attempt_in_memory!(warnings.push(mark));
    }
    Ok(())
}

fn add_errors(errors: &mut Vec<Mark>, marks: &[Mark]) -> Result<(), AllocError>
    ensures { OnOk result (errors.new.items ≡ errors.old.items ++ flat_map error_of marks.now) }
{
    for mark in marks {
        attempt!(add_error(errors, *mark));
    }
    Ok(())
}

fn add_warnings(warnings: &mut Vec<Mark>, marks: &[Mark]) -> Result<(), AllocError>
    ensures { OnOk result
        (warnings.new.items ≡ warnings.old.items ++ flat_map warning_of marks.now) }
{
    for mark in marks {
        attempt!(add_warning(warnings, *mark));
    }
    Ok(())
}

/// Adds those of the marks whose findings are printed to none, by line: if there are too many,
/// errors before warnings. `Err`: out of memory.
pub(crate) fn add_printed(printed: &mut Vec<Mark>, marks: &[Mark]) -> Result<(), AllocError>
    requires { printed.old.items ≡ [] }
    ensures { OnOk result (IsByLine (most_severe 1000 marks.now) printed.new.items) }
{
    attempt!(add_errors(printed, marks));
    attempt!(add_warnings(printed, marks));
    printed.truncate(MOST);
    put_by_line(printed)
}
