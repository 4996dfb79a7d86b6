//! Differences that are kept for a document.

ghost use Rattle.std.specs.Prelude.{◌≡◌, OnOk};
ghost use Rattle.conode_compare.specs.Compared.{findings_noted, if_noted};

use conode_compare_nmt::Finding;
use conode_compare_report::Report;
use conode_compare_rules::Findings;
use conode_compare_text::Details;
use std::alloc::AllocError;

// keeps a difference at a frame with this stamp, if there is one
fn note_finding(
    report: &mut Report,
    micros: u64,
    details: &Details,
    finding: Option<Finding>,
) -> Result<(), AllocError>
    ensures { OnOk result (report.new ≡ if_noted micros details.now finding report.old) }
{
    match finding {
        Some(finding) => report.take_finding(micros, *details, finding),
        None => Ok(()),
    }
}

/// Keeps what is found at a frame with this stamp, in microseconds, and what the line of its
/// difference says beside it. `Err`: out of memory.
#[tactic(auto, unfolding(crate::specs::Compared::findings_noted))]
pub(crate) fn note_findings(
    report: &mut Report,
    micros: u64,
    details: &Details,
    found: &Findings,
) -> Result<(), AllocError>
    ensures { OnOk result
        (report.new ≡ findings_noted micros details.now found.now report.old) }
{
    attempt!(note_finding(report, micros, details, found.boot));
    attempt!(note_finding(report, micros, details, found.heartbeat));
    attempt!(note_finding(report, micros, details, found.answer));
    note_finding(report, micros, details, found.frame)
}
