//! Entries that are held to what was written.

ghost use Rattle.std.specs.Prelude.{◌≡◌, List, map};
ghost use Rattle.co_sheet.specs.Content.{Row};
ghost use Rattle.conode_record.specs.declared.line.Record.{Record};
ghost use Rattle.conode_compare_nmt.specs.declared.finding.Finding.{Finding};
ghost use Rattle.conode_compare_rules.specs.declared.kind.FrameKind.{FrameKind};
ghost use Rattle.conode_compare_nmt.specs.declared.limits.Subject.{Subject};
ghost use Rattle.conode_compare_rules.specs.declared.verdict.Findings.{Findings};
ghost use Rattle.conode_compare_receptions.specs.AllFrames.{program_over};
ghost use Rattle.conode_compare_laws.specs.Differences.{differences_in};
ghost use Rattle.conode_compare_laws.specs.Recordings.{Recorded};
ghost use Rattle.conode_compare_laws.specs.RpdoDifferences.{
  AreReadAs,
  LawsPickNoHeld,
  PicksNoHeld,
  all_besides_held,
  as_read,
  findings_over,
};

/// What RPDOs write to the entries that are held (`--held`) changes no difference other than
/// `value-held`: so what the other laws say of a recording holds with these writes looked at between
/// two frames, as `conode compare` does (`program_over`; `compares_frames` of `conode_compare`).
/// Whatever is known of the data sheet, whichever entries are held, and with whatever stamps.
/// `picked`: of each choice of differences in which `value-held` isn't (`PicksNoHeld`) the program
/// finds the same in any list of data frames. `read`: so it does in frames that are read of a log as
/// these (`AreReadAs`), on whatever interfaces. `laws`: the choices of all laws of this crate are
/// such. `others`: of all kinds other than `value-held` it finds the same at frames of any kind,
/// remote frames, error frames and CAN FD too. This is a law: a call of it changes nothing.
pub fn held_changes_no_other()
    ensures picked { (these : FrameKind → Findings → List Finding) (subject : Subject)
        (rows : List Row) (recorded : List Recorded) → PicksNoHeld these →
        program_over these subject rows (map as_read recorded)
        ≡ differences_in these subject rows recorded }
    ensures read { (these : FrameKind → Findings → List Finding) (subject : Subject)
        (rows : List Row) (frames : List Record) (recorded : List Recorded) → PicksNoHeld these →
        AreReadAs frames recorded →
        program_over these subject rows frames ≡ differences_in these subject rows recorded }
    ensures laws { LawsPickNoHeld }
    ensures others { (subject : Subject) (rows : List Row) (frames : List Record) →
        program_over all_besides_held subject rows frames
        ≡ findings_over all_besides_held subject rows frames }
{}
