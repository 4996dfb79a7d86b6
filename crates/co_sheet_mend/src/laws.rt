//! Laws of the text that comes in place of one with faults.

ghost use Rattle.std.specs.Prelude.{◌≡◌, ℕ, ◌≤◌, true, List, [], codes, length, Option, Some, None};
ghost use Rattle.co_value.specs.declared.key.Key.{Key as KeyOf};
ghost use Rattle.co_sheet_adapt.specs.Adapted.{adapted_text};
ghost use Rattle.co_sheet_changes.specs.Groups.{section_in};
ghost use Rattle.co_sheet_faults.specs.AllFaults.{faults_of};
ghost use Rattle.co_sheet_text.specs.declared.section_kind.SectionKind.{SectionKind};
ghost use Rattle.co_sheet_text.specs.Sections.{IsLineOf, Property, TextSection, property_at};
ghost use Rattle.co_sheet_text.specs.Text.{Line as LineOf, lines_of};
ghost use Rattle.co_sheet_mend.specs.NameLaws.{IsEntryIn, IsWithin, is_entry, name_read};
ghost use Rattle.co_sheet_mend.specs.ReadableTexts.{ReadableText, readable};
ghost use Rattle.co_sheet_mend.specs.Repairs.{begins_list, ended, line_as, repair_at};
ghost use Rattle.co_sheet_mend.specs.declared.repair.Repair.TheVariants.{Counted};

/// Entries at fault keep their names. Of each object and sub-index section that a text has, as it
/// is read in spite of its faults: the line of its ParameterName has no repair, so it stays as it
/// is (`name`), and whatever repair its section line has keeps that line and adds lines before it
/// or after it (`section`). The objects that a list names are counted anew, which empties the lines
/// up to the next section line, at the section line of an object list alone (`list`). This is a
/// law: a call of it changes nothing.
pub fn names_stay()
    ensures name { (text : List ℕ) (s : TextSection) (k : Property) → IsEntryIn text s →
        property_at (codes "ParameterName") s ≡ Some k →
        repair_at (faults_of text) k.line ≡ None }
    ensures section { (text : List ℕ) (s : TextSection) → IsEntryIn text s →
        (key : Option KeyOf) (line : LineOf) (more : List LineOf) (name : List ℕ) →
        section_in line ≡ Some name →
        IsWithin (ended line.bytes) (line_as (repair_at (faults_of text) s.line) key line more) }
    ensures list { (text : List ℕ) (before : List LineOf) (line : LineOf) → length text ≤ 1048576 →
        IsLineOf (lines_of text) before line →
        repair_at (faults_of text) line.number ≡ Some Counted → begins_list line ≡ true }
{}

/// All rounds of mending keep names. In the text that `readable` makes, each object and sub-index
/// has the name that its section has in the text before, which is that of `adapt` as it is read in
/// spite of its faults; without a name there it has none. This is a law: a call of it changes
/// nothing.
pub fn rounds_keep_names()
    ensures name { (text : List ℕ) (made : ReadableText) (kind : SectionKind) →
        readable text ≡ Some made → is_entry kind ≡ true →
        name_read kind made.text ≡ name_read kind (adapted_text [] text) }
{}
