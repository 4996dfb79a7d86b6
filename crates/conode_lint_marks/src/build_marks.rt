//! Why no dictionary can be built from a sheet, by the lines of its text.

ghost use Rattle.std.specs.Prelude.{◌≡◌, ◌++◌, map, OnOk};
ghost use Rattle.std.specs.List.{flat_map};
ghost use Rattle.co_sheet_text.specs.Views.{section_view};
ghost use Rattle.co_dict_build.specs.Built.{plan_of};
ghost use Rattle.co_dict_build.specs.Capacities.{limits_view};
ghost use Rattle.conode_lint_marks.specs.BuildLines.{
  build_marks,
  built_marks,
  mapping_mark,
  marks_with,
};

use crate::build_lines::{build_line, entry_line};
use crate::mark::{Mark, Subject};
use co_dict_build::{BuildFault, Limits};
use co_dict_faults::{BuildFaults, MappingFault, find_build_faults};
use co_dict_list::ListStore;
use co_sheet::Sheet;
use co_sheet_text::TextSection;
use std::alloc::{AllocError, Global};

// the mark of a build fault; a mapping has none here, but one for each faulty word and for its
// count
fn add_build_fault(
    marks: &mut Vec<Mark>,
    sheet: &Sheet<'_>,
    sections: &[TextSection<'_, '_>],
    fault: BuildFault,
) -> Result<(), AllocError>
    ensures { OnOk result (marks.new.items
        ≡ marks.old.items ++ build_marks sheet.now (map section_view sections.now) fault) }
{
    match fault {
        BuildFault::BadMapping(_) => Ok(()),
        other => {
            attempt_in_memory!(marks.push(Mark {
                line: build_line(sheet, sections, other),
                subject: Subject::Build(other),
            }));
            Ok(())
        }
    }
}

fn add_build_faults(
    marks: &mut Vec<Mark>,
    sheet: &Sheet<'_>,
    sections: &[TextSection<'_, '_>],
    faults: &[BuildFault],
) -> Result<(), AllocError>
    ensures { OnOk result (marks.new.items ≡ marks.old.items
        ++ flat_map (build_marks sheet.now (map section_view sections.now)) faults.now) }
{
    for fault in faults {
        attempt!(add_build_fault(marks, sheet, sections, *fault));
    }
    Ok(())
}

fn add_mapping_faults(
    marks: &mut Vec<Mark>,
    sheet: &Sheet<'_>,
    sections: &[TextSection<'_, '_>],
    faults: &[MappingFault],
) -> Result<(), AllocError>
    ensures { OnOk result (marks.new.items ≡ marks.old.items
        ++ map (mapping_mark sheet.now (map section_view sections.now)) faults.now) }
{
    for fault in faults {
        attempt_in_memory!(marks.push(Mark {
            line: entry_line(sheet, sections, fault.key),
            subject: Subject::Mapping(*fault),
        }));
    }
    Ok(())
}

// the marks of faults of a sheet, at the lines of its sections
#[tactic(auto, unfolding(crate::specs::BuildLines::marks_with))]
fn add_at_lines(
    marks: &mut Vec<Mark>,
    sheet: &Sheet<'_>,
    sections: &[TextSection<'_, '_>],
    found: &BuildFaults,
) -> Result<(), AllocError>
    ensures { OnOk result (marks.new.items ≡ marks.old.items
        ++ marks_with sheet.now (map section_view sections.now)
        found.now.faults.items found.now.mappings.items) }
{
    attempt!(add_build_faults(marks, sheet, sections, found.faults.as_slice()));
    add_mapping_faults(marks, sheet, sections, found.mappings.as_slice())
}

/// Adds the marks of the faults in building a dictionary, for a node-ID, from a sheet with these
/// sections. `Err`: out of memory.
pub fn add_build_marks(
    alloc: Global,
    marks: &mut Vec<Mark>,
    sheet: &Sheet<'_>,
    sections: &[TextSection<'_, '_>],
    node_id: u8,
    limits: &Limits<'_>,
) -> Result<(), AllocError>
    ensures { OnOk result (marks.new.items ≡ marks.old.items
        ++ built_marks sheet.now (map section_view sections.now)
        (plan_of node_id (limits_view limits.now) sheet.now)) }
{
    match find_build_faults::<ListStore>(alloc, sheet, node_id, limits) {
        Ok(found) => add_at_lines(marks, sheet, sections, &found),
        Err(fault) => Err(fault),
    }
}
