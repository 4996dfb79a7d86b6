//! A recording as its frames.

ghost use Rattle.std.specs.Prelude.{◌≡◌, ℕ, List, None, Option, Some};
ghost use Rattle.co_sheet.specs.Content.{Row};
ghost use Rattle.conode_logs.specs.declared.log.Form.{Form};
ghost use Rattle.conode_compare_report.specs.Views.{Kept};
ghost use Rattle.conode_compare_nmt.specs.declared.finding.Finding.{Finding};
ghost use Rattle.conode_compare_rules.specs.declared.kind.FrameKind.{FrameKind};
ghost use Rattle.conode_compare_nmt.specs.declared.limits.Subject.{Subject};
ghost use Rattle.conode_compare_rules.specs.declared.verdict.Findings.{Findings};
ghost use Rattle.conode_compare_receptions.specs.AllFrames.{program_over};
ghost use Rattle.conode_compare_text.specs.Tallies.{no_frames};
ghost use Rattle.conode_compare.specs.Compared.{Comparison, compared, comparing_after};
ghost use Rattle.conode_compare.specs.ComparedFrames.{
  AreAllOn,
  IsWhole,
  LineRead,
  compared_frames,
  lines_shown,
  picked,
  program_over_lines,
  read_of_text,
  records_of,
  shown_in,
  tally_of,
};

/// A recording is compared frame by frame, whatever its text, its form and its interfaces. `lines`:
/// where no document is wanted, the lines that are written are those of what is found and noted at
/// its frames (`shown_in`), in order: of each frame that is read of a line and compared
/// (`compared_frames`), and of no other; after a bad line that may have had one the recording begins
/// anew. `tally`: by the same findings the frames are counted, for a document too. `found`: of these
/// findings, whichever are picked, they are those that the program finds in these lines
/// (`program_over_lines`). `whole`: where no line between two frames is bad, these are those that it
/// finds in the frames alone (`program_over` of `conode_compare_receptions`), of which the laws of
/// `conode_compare_laws` speak. `named`, `first`: where all frames are of one interface, which is
/// named or not, and no bad line names another one, they are all frames of the text. This is a law:
/// a call of it changes nothing.
pub fn compares_frames()
    ensures lines { (c : Comparison) (form : Form) (text : List ℕ) →
        compared c form None text ≡ lines_shown c (shown_in c form text) }
    ensures tally { (c : Comparison) (form : Form) (report : Option Kept) (text : List ℕ) →
        (comparing_after c form report text).tally ≡ tally_of no_frames (shown_in c form text) }
    ensures found { (these : FrameKind → Findings → List Finding) (c : Comparison) (form : Form)
        (text : List ℕ) → picked these (shown_in c form text) ≡ program_over_lines these
        c.subject c.rows (compared_frames c.interface form text) }
    ensures whole { (these : FrameKind → Findings → List Finding) (subject : Subject)
        (rows : List Row) (lines : List LineRead) → IsWhole lines →
        program_over_lines these subject rows lines
        ≡ program_over these subject rows (records_of lines) }
    ensures named { (name : List ℕ) (form : Form) (text : List ℕ) →
        AreAllOn name (read_of_text form text) →
        compared_frames (Some name) form text ≡ read_of_text form text }
    ensures first { (name : List ℕ) (form : Form) (text : List ℕ) →
        AreAllOn name (read_of_text form text) →
        compared_frames None form text ≡ read_of_text form text }
{}
