//! The access that CiA 301 has for an entry.

ghost use Rattle.std.specs.Prelude.{◌≡◌, ◌==◌, if◌then◌else◌, option_to_list};
ghost use Rattle.co_sheet_text.specs.Views.{section_view};
ghost use Rattle.co_sheet_warnings.specs.Accesses.{
  access_against,
  fixed_access,
  is_against,
  is_parameters,
  is_read_only_object,
  is_read_only_sub_index,
  is_write_only_word,
  is_written_word,
  sub_access,
  wrong_access,
};
ghost use Rattle.co_sheet_warnings.specs.SubIndices.{is_constant_word};

use co_sheet_text::{SectionKind, TextSection, same_name};
use co_sheet_text_warnings::is_within;
use co_value::Key;

/// What access an entry has (CiA 301, objects of the communication profile).
#[derive(Clone, Copy)]
pub enum FixedAccess {
    /// `ro` or `const`: nobody writes it.
    ReadOnly,
    /// `rw`; a device may refuse to write it by `ro` or `const`.
    Readable,
    /// `rw`.
    ReadWrite,
}

// of objects without sub-indices: device type, registers, the manufacturer's names and versions
fn is_read_only_object(index: u16) -> bool
    ensures { result ≡ is_read_only_object index }
{
    is_within(0x1000, 0x1002, index) || is_within(0x1008, 0x100A, index)
}

// the identity object, and the identifiers of the first SDO server
fn is_read_only_sub_index(key: Key) -> bool
    ensures { result ≡ is_read_only_sub_index key }
{
    key.index == 0x1018 || (key.index == 0x1200 && key.sub <= 2)
}

// storing and restoring parameters
fn is_parameters(index: u16) -> bool
    ensures { result ≡ is_parameters index }
{
    index == 0x1010 || index == 0x1011
}

// of sub-index 0, and of the others
fn of_sub_index_0(sub: u8, first: FixedAccess, others: FixedAccess) -> FixedAccess
    ensures { result ≡ if sub == 0 then first else others }
{
    if sub == 0 { first } else { others }
}

fn sub_access(key: Key) -> Option<FixedAccess>
    ensures { result ≡ sub_access key }
{
    if key.index == 0x1003 {
        return Some(of_sub_index_0(key.sub, FixedAccess::ReadWrite, FixedAccess::ReadOnly));
    }
    if is_parameters(key.index) {
        return Some(of_sub_index_0(key.sub, FixedAccess::ReadOnly, FixedAccess::Readable));
    }
    if is_read_only_sub_index(key) {
        return Some(FixedAccess::ReadOnly);
    }
    None
}

/// The access that CiA 301 has for the entry of a section, where it leaves no choice.
pub fn fixed_access(kind: SectionKind) -> Option<FixedAccess>
    ensures { result ≡ fixed_access kind }
{
    match kind {
        SectionKind::Object(index) if is_read_only_object(index) => Some(FixedAccess::ReadOnly),
        SectionKind::SubIndex(key) => sub_access(key),
        _ => None,
    }
}

/// Whether nobody writes an entry with this word.
pub(crate) fn is_constant_word(word: &[u8]) -> bool
    ensures { result ≡ is_constant_word word.now }
{
    same_name(word, b"ro") || same_name(word, b"const")
}

fn is_write_only_word(word: &[u8]) -> bool
    ensures { result ≡ is_write_only_word word.now }
{
    same_name(word, b"wo")
}

fn is_written_word(word: &[u8]) -> bool
    ensures { result ≡ is_written_word word.now }
{
    same_name(word, b"rw")
        || same_name(word, b"rwr")
        || same_name(word, b"rww")
        || is_write_only_word(word)
}

// whether a word of AccessType isn't permitted
fn is_against(access: FixedAccess, word: &[u8]) -> bool
    ensures { result ≡ is_against access word.now }
{
    match access {
        FixedAccess::ReadOnly => is_written_word(word),
        FixedAccess::Readable => is_write_only_word(word),
        FixedAccess::ReadWrite => is_constant_word(word) || is_write_only_word(word),
    }
}

// the line of such a word
fn access_against(section: &TextSection, access: FixedAccess) -> Option<usize>
    ensures { option_to_list result ≡ access_against (section_view section.now) access }
{
    match section.property(b"AccessType") {
        Some(given) if is_against(access, given.value) => Some(given.line),
        _ => None,
    }
}

/// The line of an AccessType other than CiA 301 has it for the entry.
pub(crate) fn wrong_access(section: &TextSection) -> Option<usize>
    ensures { option_to_list result ≡ wrong_access (section_view section.now) }
{
    match fixed_access(section.kind) {
        Some(access) => access_against(section, access),
        None => None,
    }
}
