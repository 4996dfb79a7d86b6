//! What numbered checks find first.

ghost use Rattle.std.specs.Prelude.{◌≡◌, IfOk};
ghost use Rattle.std.specs.Result.{result_err};
ghost use Rattle.co_sheet.specs.private.Findings.{is_before, sooner, checked};

use co_sheet_rows::SheetFault;

/// What the first check that finds anything finds.
#[derive(Clone, Copy)]
pub(crate) struct Finding {
    /// The number of the check, from 1.
    pub(crate) check: u8,
    pub(crate) fault: SheetFault,
}

impl Finding {
    // whether the finding comes before another: an earlier check, or the same one on a smaller line
    fn is_before(&self, other: &Finding) -> bool
        ensures { result ≡ is_before self.now other.now }
    {
        self.check < other.check || self.check == other.check && self.fault.line < other.fault.line
    }
}

// of two findings the one that comes first
pub(crate) fn sooner(found: Option<Finding>, other: Option<Finding>) -> Option<Finding>
    ensures { result ≡ sooner found other }
{
    match (found, other) {
        (Some(f), Some(g)) if g.is_before(&f) => Some(g),
        (Some(f), _) => Some(f),
        (None, other) => other,
    }
}

// what is read, or the fault as the finding of a check
pub(crate) fn checked<T>(check: u8, read: Result<T, SheetFault>) -> Result<T, Finding>
    ensures { result ≡ checked check read }
{
    match read {
        Ok(value) => Ok(value),
        Err(fault) => Err(Finding { check, fault }),
    }
}

// what is read, unless something is found: then what comes first
pub(crate) fn unless<T: Drop>(
    read: Result<T, Finding>,
    found: Option<Finding>,
) -> Result<T, Finding>
    ensures finding { result_err result ≡ sooner (result_err read) found }
    ensures read { IfOk result (λ value. read ≡ Ok value) }
{
    match (read, found) {
        (Ok(value), None) => Ok(value),
        (Ok(_), Some(found)) => Err(found),
        (Err(first), None) => Err(first),
        (Err(first), Some(found)) => Err(if found.is_before(&first) {
            found
        } else {
            first
        }),
    }
}
