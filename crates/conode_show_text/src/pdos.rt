//! PDOs in words: COB-ID, transmission type, timers, what they map (CiA 301, 7.5.2.35 to 7.5.2.38).

ghost use Rattle.std.specs.Prelude.{◌≡◌, ◌≤◌, ℕ, Option, map, option_map};
ghost use Rattle.std.specs.Option.{option_copied};
ghost use Rattle.co_sheet_text.specs.Views.{section_view};
ghost use Rattle.conode_text.specs.Appended.{Appended};
ghost use Rattle.conode_show_text.specs.Cells.{cell_text};
ghost use Rattle.conode_show_text.specs.Phrases.{phrase_text};
ghost use Rattle.conode_show_text.specs.Pdos.{
  counted_line,
  entry_section,
  has_inhibit_time,
  inhibit_text,
  is_counted,
  is_pdo_cob_id,
  known_word,
  mapped_lines,
  mapped_name,
  mapping_count,
  mapping_size,
  multiplexed_line,
  multiplexed_words,
  pdo_line,
  pdo_lines,
  pdo_name,
  pdo_text,
  said_at,
  section_word,
  type_meaning,
};

use crate::cells::{Cell, Content};
use crate::format::Format;
use crate::meaning::{Meaning, mapped_key};
use crate::page::Page;
use crate::phrase::{Phrase, with_number};
use crate::values::{Word, value_of, word_of};
use co_profile::IndexRange;
use co_sheet::section_at;
use co_sheet_text::{SectionKind, TextSection};
use co_value::Key;

/// Whether an entry is the COB-ID of a PDO.
pub fn is_pdo_cob_id(key: Key) -> bool
    ensures { result ≡ is_pdo_cob_id key }
{
    key.sub == 1
        && (IndexRange::RPDO_COMMUNICATION.contains(key.index)
            || IndexRange::TPDO_COMMUNICATION.contains(key.index))
}

/// A PDO's name with its number, from 1, by the index of its communication parameter.
#[tactic(auto, unfolding(crate::specs::Pdos::pdo_name, conode_text::specs::Filled::filled))]
pub(crate) fn pdo_name(index: u16) -> Phrase<'static>
    ensures { phrase_text result ≡ pdo_name index }
{
    if IndexRange::RPDO_COMMUNICATION.contains(index) {
        with_number("RPDO %", index.saturating_sub(0x13FF) as u64)
    } else {
        with_number("TPDO %", index.saturating_sub(0x17FF) as u64)
    }
}

/// What the transmission type of a PDO means, by the index of its communication parameter.
#[tactic(auto, unfolding(crate::specs::Pdos::type_meaning))]
pub fn type_meaning(index: u16) -> Meaning
    ensures { result ≡ type_meaning index }
{
    if IndexRange::RPDO_COMMUNICATION.contains(index) {
        Meaning::Reception
    } else {
        Meaning::Transmission
    }
}

// the value of a sub-index in words
#[tactic(auto, unfolding(crate::specs::Pdos::said_at))]
fn said_at<'p>(meaning: Meaning, sections: &'p [TextSection<'p, 'p>], key: Key) -> Content<'p>
    ensures { (node : Option ℕ) → cell_text node result
        ≡ said_at meaning node (map section_view sections.entry.now) key }
{
    match section_at(sections, SectionKind::SubIndex(key)) {
        Some(section) => Content::Said(meaning, section),
        None => Content::Nothing,
    }
}

/// Whether a PDO has an inhibit time, by the index of its communication parameter: sub-index 3 of
/// an RPDO isn't used.
pub fn has_inhibit_time(index: u16) -> bool
    ensures { result ≡ has_inhibit_time index }
{
    IndexRange::TPDO_COMMUNICATION.contains(index)
}

// the inhibit time of a PDO
fn inhibit_time<'p>(sections: &'p [TextSection<'p, 'p>], index: u16) -> Content<'p>
    ensures { (node : Option ℕ) → cell_text node result
        ≡ inhibit_text node (map section_view sections.entry.now) index }
{
    if has_inhibit_time(index) {
        said_at(Meaning::PdoInhibit, sections, Key { index, sub: 3 })
    } else {
        Content::Nothing
    }
}

/// The section of an entry: that of its sub-index, or else for sub-index 0 that of its object.
pub fn entry_section<'s, 'a>(
    sections: &'s [TextSection<'s, 'a>],
    key: Key,
) -> Option<&'s TextSection<'s, 'a>>
    ensures { option_map section_view (option_copied result)
        ≡ entry_section (map section_view sections.now) key }
{
    match section_at(sections, SectionKind::SubIndex(key)) {
        Some(section) => Some(section),
        None if key.sub == 0 => section_at(sections, SectionKind::Object(key.index)),
        None => None,
    }
}

/// The value of an entry as a word, if it is one.
pub fn section_word(node: Option<u8>, section: &TextSection<'_, '_>) -> Option<Word>
    ensures { result ≡ section_word node (section_view section.now) }
{
    match value_of(section) {
        Some(given) => word_of(node, given.value),
        None => None,
    }
}

/// The value of an entry as a word, if it is one and no sum with a node-ID that isn't known.
pub fn known_word(node: Option<u8>, section: &TextSection<'_, '_>) -> Option<Word>
    ensures { result ≡ known_word node (section_view section.now) }
{
    match section_word(node, section) {
        Some(word) if !word.relative => Some(word),
        _ => None,
    }
}

// the name of the entry that a word of a mapping names
#[tactic(auto, unfolding(crate::specs::Pdos::mapped_name))]
fn mapped_name<'p>(
    node: Option<u8>,
    sections: &'p [TextSection<'p, 'p>],
    section: &TextSection<'_, '_>,
) -> Content<'p>
    ensures { cell_text node result ≡ mapped_name node (map section_view sections.entry.now)
        (section_view section.now) }
{
    let Some(word) = known_word(node, section) else {
        return Content::Nothing;
    };
    match entry_section(sections, mapped_key(word.number)) {
        Some(entry) => Content::Property(b"ParameterName", entry),
        None => Content::Nothing,
    }
}

// the number in sub-index 0 of a mapping, if it is known
fn mapping_size(node: Option<u8>, sections: &[TextSection], index: u16) -> Option<Word>
    ensures { result ≡ mapping_size node (map section_view sections.now) index }
{
    match section_at(sections, SectionKind::SubIndex(Key { index, sub: 0 })) {
        Some(section) => known_word(node, section),
        None => None,
    }
}

/// How many words of a mapping count: the value of its sub-index 0, or 0 if that is above 64 or isn't
/// known.
pub fn mapping_count(node: Option<u8>, sections: &[TextSection], index: u16) -> u64
    ensures { result ≡ mapping_count node (map section_view sections.now) index }
{
    match mapping_size(node, sections, index) {
        Some(word) if word.number <= 64 => word.number,
        _ => 0,
    }
}

/// What sub-index 0 of the mapping of a multiplexed PDO has in place of a count: its messages have
/// the address of the source of their data.
const SOURCE_ADDRESS_MODE: u64 = 0xFE;

/// The same: they have the address of the destination.
const DESTINATION_ADDRESS_MODE: u64 = 0xFF;

/// What the mapping of a multiplexed PDO says, in words (CiA 301, 7.2.2.5); no words of any other.
pub fn multiplexed_words(node: Option<u8>, sections: &[TextSection], index: u16) -> &'static str
    ensures { result.now ≡ multiplexed_words node (map section_view sections.now) index }
{
    match mapping_size(node, sections, index) {
        Some(word) if word.number == SOURCE_ADDRESS_MODE => {
            "multiplexed PDO, source address mode"
        }
        Some(word) if word.number == DESTINATION_ADDRESS_MODE => {
            "multiplexed PDO, destination address mode"
        }
        _ => "",
    }
}

// the line of a multiplexed PDO's mapping; nothing if there are no words
#[tactic(auto, using(conode_text::proofs::Appending::nothing))]
fn put_multiplexed(page: &mut Page, format: Format, words: &'static str)
    ensures { Appended page.old (multiplexed_line format words.now) page.new }
{
    if words.is_empty() {
        return;
    }
    page.put_line(
        format,
        None,
        &[
            Cell(0, Content::Nothing),
            Cell(8, Content::Words(words)),
            Cell(38, Content::Nothing),
            Cell(72, Content::Nothing),
            Cell(83, Content::Nothing),
        ],
    );
}

/// Whether a section is one of the words that count in the mapping of this index.
pub fn is_counted(index: u16, count: u64, kind: SectionKind) -> bool
    ensures { result ≡ is_counted index count kind }
{
    match kind {
        SectionKind::SubIndex(key) => {
            key.index == index && 1 <= key.sub && key.sub as u64 <= count
        }
        _ => false,
    }
}

// the line of a section, if it is a word that counts in the mapping
#[tactic(auto, using(conode_text::proofs::Appending::nothing), unfolding(crate::specs::Pdos::mapped_line))]
fn put_if_counted<'p>(
    page: &mut Page,
    format: Format,
    node: Option<u8>,
    sections: &'p [TextSection<'p, 'p>],
    index: u16,
    count: u64,
    section: &'p TextSection<'p, 'p>,
)
    ensures { Appended page.old (counted_line format node
        (map section_view sections.entry.now) index count (section_view section.entry.now)) page.new }
{
    if !is_counted(index, count, section.kind) {
        return;
    }
    page.put_line(
        format,
        node,
        &[
            Cell(0, Content::Nothing),
            Cell(8, Content::Said(Meaning::Mapped, section)),
            Cell(38, mapped_name(node, sections, section)),
            Cell(72, Content::Nothing),
            Cell(83, Content::Nothing),
        ],
    );
}

// the lines of what a mapping maps
fn put_mapped_lines<'p>(
    page: &mut Page,
    format: Format,
    node: Option<u8>,
    sections: &'p [TextSection<'p, 'p>],
    index: u16,
)
    ensures { Appended page.old (mapped_lines format node (map section_view sections.entry.now) index
        (mapping_count node (map section_view sections.entry.now) index)) page.new }
{
    let count = mapping_count(node, sections, index);
    for section in sections {
        put_if_counted(page, format, node, sections, index, count, section);
    }
}

// the line of a PDO, by the section of its COB-ID
#[tactic(auto, unfolding(crate::specs::Pdos::pdo_line))]
fn put_pdo_line<'p>(
    page: &mut Page,
    format: Format,
    node: Option<u8>,
    sections: &'p [TextSection<'p, 'p>],
    index: u16,
    section: &'p TextSection<'p, 'p>,
)
    ensures { Appended page.old (pdo_line format node (map section_view sections.entry.now) index
        (section_view section.entry.now)) page.new }
{
    let transmission = Key { index, sub: 2 };
    let timer = Key { index, sub: 5 };
    page.put_line(
        format,
        node,
        &[
            Cell(0, Content::Pdo(index)),
            Cell(8, Content::Said(Meaning::PdoCobId, section)),
            Cell(38, said_at(type_meaning(index), sections, transmission)),
            Cell(72, inhibit_time(sections, index)),
            Cell(83, said_at(Meaning::EventTimer, sections, timer)),
        ],
    );
}

// a PDO, by the section of its COB-ID
fn put_pdo_lines<'p>(
    page: &mut Page,
    format: Format,
    node: Option<u8>,
    sections: &'p [TextSection<'p, 'p>],
    index: u16,
    section: &'p TextSection<'p, 'p>,
)
    requires { index ≤ 0x1BFF }
    ensures { Appended page.old (pdo_lines format node (map section_view sections.entry.now) index
        (section_view section.entry.now)) page.new }
{
    put_pdo_line(page, format, node, sections, index, section);
    let mapping = index + 0x200;
    put_multiplexed(page, format, multiplexed_words(node, sections, mapping));
    put_mapped_lines(page, format, node, sections, mapping);
}

/// Appends the lines of a PDO, by the section of its COB-ID; nothing for any other section.
#[tactic(auto, using(conode_text::proofs::Appending::nothing))]
pub(crate) fn put_pdo<'p>(
    page: &mut Page,
    format: Format,
    node: Option<u8>,
    sections: &'p [TextSection<'p, 'p>],
    section: &'p TextSection<'p, 'p>,
)
    ensures { Appended page.old (pdo_text format node (map section_view sections.entry.now)
        (section_view section.entry.now)) page.new }
{
    match section.kind {
        SectionKind::SubIndex(key) if is_pdo_cob_id(key) => {
            put_pdo_lines(page, format, node, sections, key.index, section);
        }
        _ => {}
    }
}
