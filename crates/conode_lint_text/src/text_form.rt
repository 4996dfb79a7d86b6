//! Findings as compilers print them. Each function appends a text. `Err`: out of memory; a part of
//! the text may be there.

ghost use Rattle.std.specs.Prelude.{◌≡◌, ◌++◌, ◌∷◌, codes, OnOk, string_bytes};
ghost use Rattle.conode_json.specs.Characters.{characters_of};
ghost use Rattle.conode_lint_text.specs.Findings.{column_of};
ghost use Rattle.conode_lint_text.specs.TextForm.{
  severity_colour,
  finding_lines,
  more_line,
  summary_line,
};

use crate::column::column_of;
use crate::finding::{Finding, Severity};
use crate::pieces::Piece;
use crate::words::fix_of;
use conode_json::characters_of;
use conode_text::push_filled;
use std::alloc::{AllocError, Global};

/// The beginnings of colours on a terminal, and their end.
const PLACE: &str = "\u{1B}[1m";

const HELP: &str = "\u{1B}[1;36m";

const END: &str = "\u{1B}[0m";

fn label_colour(severity: Severity) -> &'static str
    ensures { result.now ≡ 27 ∷ codes "[" ++ severity_colour severity ++ codes "m" }
{
    match severity {
        Severity::Error => "\u{1B}[1;31m",
        Severity::Warning => "\u{1B}[1;35m",
    }
}

// the place, the label and what is wrong; the line itself; how to fix it
fn push_lines<'p>(
    text: &mut String,
    colours: bool,
    file: &'p [char],
    finding: &'p Finding<'p>,
    characters: &'p [char],
) -> Result<(), AllocError>
    requires { characters.now ≡ characters_of finding.now.text.now }
    ensures { OnOk result (string_bytes text.new
        ≡ string_bytes text.old ++ finding_lines colours file.now finding.now) }
{
    push_filled(
        text,
        "%%:%% %%[%]:% %\n%  %help:% %\n",
        &[
            Piece::Colour(colours, PLACE),
            Piece::Shown(file),
            Piece::Position(finding.line, column_of(finding, characters)),
            Piece::Colour(colours, END),
            Piece::Colour(colours, label_colour(finding.severity)),
            Piece::Severity(finding.severity),
            Piece::Words(finding.name),
            Piece::Colour(colours, END),
            Piece::Message(finding),
            Piece::Quoted(finding.line, characters),
            Piece::Colour(colours, HELP),
            Piece::Colour(colours, END),
            Piece::Help(fix_of(finding), finding.subject),
        ],
    )
}

/// Appends the lines of a finding: `motor.eds:59:1: error[BadList]:` with what is wrong, the line
/// itself, and how to fix it.
pub fn push_finding(
    alloc: Global,
    text: &mut String,
    colours: bool,
    file: &[char],
    finding: &Finding<'_>,
) -> Result<(), AllocError>
    ensures { OnOk result (string_bytes text.new
        ≡ string_bytes text.old ++ finding_lines colours file.now finding.now) }
{
    match characters_of(alloc, finding.text) {
        Ok(characters) => push_lines(text, colours, file, finding, characters.as_slice()),
        Err(fault) => Err(fault),
    }
}

/// Appends the line of a file whose further findings aren't printed, as `motor.eds: 3 more`.
#[tactic(auto, unfolding(crate::specs::TextForm::more_line))]
pub fn push_more(text: &mut String, file: &[char], count: usize) -> Result<(), AllocError>
    ensures { OnOk result
        (string_bytes text.new ≡ string_bytes text.old ++ more_line file.now count) }
{
    push_filled(
        text,
        "%: % more\n",
        &[Piece::Shown(file), Piece::Number(count)],
    )
}

/// Appends the last line, as `2 errors, 1 warning in 3 files`.
#[tactic(auto, unfolding(crate::specs::TextForm::summary_line))]
pub fn push_summary(
    text: &mut String,
    errors: usize,
    warnings: usize,
    files: usize,
) -> Result<(), AllocError>
    ensures { OnOk result (string_bytes text.new
        ≡ string_bytes text.old ++ summary_line errors warnings files) }
{
    push_filled(
        text,
        "%, % in %\n",
        &[
            Piece::Counted(errors, "error"),
            Piece::Counted(warnings, "warning"),
            Piece::Counted(files, "file"),
        ],
    )
}
