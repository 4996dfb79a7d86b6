//! Laws of all faults of a text.

ghost use Rattle.std.specs.Prelude.{◌≡◌, ℕ, ◌<◌, ◌≤◌, length, List, [], ◌∷◌, Contains, Some};
ghost use Rattle.co_sheet_rows.specs.declared.fault.FaultKind.{FaultKind as Kind};
ghost use Rattle.co_sheet_rows.specs.declared.fault.FaultKind.TheVariants.{
  TooLarge,
  BadLimits,
  BadDefault,
};
ghost use Rattle.co_sheet_rows.specs.declared.fault.SheetFault.{SheetFault as Fault};
ghost use Rattle.co_sheet_text.specs.Text.{Line, lines_of};
ghost use Rattle.co_sheet.specs.Accepted.{IsAccepted, first_fault};
ghost use Rattle.co_sheet.specs.Faults.{fault_at};
ghost use Rattle.co_sheet_faults.specs.AllFaults.{faults_in, faults_of};
ghost use Rattle.co_sheet_faults.specs.FaultLaws.{
  AreNumbered,
  HaveNoKeyTwice,
  IsLineKind,
  IsLineFault,
  IsFirstCheckFault,
  IsFaultOf,
  emptied_at,
  emptied_of,
  without,
};

/// All faults of a text against the reader of a sheet. There are none exactly if the text is
/// accepted. The fault that the reader returns is among them. Each is a fault by its own
/// definition: the text is too large, or a line has it, or a check finds it in the sections that
/// are read. A text that is too large has that fault alone. For any other text, the fault of each
/// line is among them, and so is every fault of the first check that finds any in the sections that
/// are read. This is a law: a call of it changes nothing.
pub fn all_faults()
    ensures accepted { (text : List ℕ) → IsAccepted text → faults_of text ≡ [] }
    ensures none { (text : List ℕ) → faults_of text ≡ [] → IsAccepted text }
    ensures first { (text : List ℕ) (fault : Fault) → first_fault text ≡ Some fault →
        Contains (faults_of text) fault }
    ensures each { (text : List ℕ) (fault : Fault) → Contains (faults_of text) fault →
        IsFaultOf text fault }
    ensures large { (text : List ℕ) → 1048576 < length text →
        faults_of text ≡ fault_at 0 TooLarge ∷ [] }
    ensures lines { (text : List ℕ) (fault : Fault) → length text ≤ 1048576 →
        IsLineFault (lines_of text) fault → Contains (faults_of text) fault }
    ensures every { (text : List ℕ) (fault : Fault) → length text ≤ 1048576 →
        IsFirstCheckFault (lines_of text) fault → Contains (faults_of text) fault }
{}

/// If the lines whose own fault is of one kind are emptied (`TooLarge`, `BadLine`,
/// `KeyOutsideSection`, `DuplicateSection`, `DuplicateKey`), exactly the faults of that kind are
/// gone. A section line is emptied to `[]`, which begins a section that nothing reads. This is
/// stated for lists of lines, not for texts. This is a law: a call of it changes nothing.
pub fn emptied_lines()
    ensures gone { (kind : Kind) (lines : List Line) → IsLineKind kind →
        faults_in (emptied_of kind [] lines) ≡ without kind (faults_in lines) }
{}

/// If the lines with a fault `BadLimits` are emptied, exactly these faults are gone and all others
/// stay; the same holds for `BadDefault`. The line numbers must rise, as those of a text do
/// (`numbered`), and no section may have a key twice: with a first `LowLimit` emptied, a second one
/// would be the first. This is a law: a call of it changes nothing.
pub fn emptied_values()
    ensures numbered { (text : List ℕ) → AreNumbered (lines_of text) }
    ensures limits { (lines : List Line) → AreNumbered lines → HaveNoKeyTwice lines →
        faults_in (emptied_at BadLimits lines) ≡ without BadLimits (faults_in lines) }
    ensures defaults { (lines : List Line) → AreNumbered lines → HaveNoKeyTwice lines →
        faults_in (emptied_at BadDefault lines) ≡ without BadDefault (faults_in lines) }
{}
