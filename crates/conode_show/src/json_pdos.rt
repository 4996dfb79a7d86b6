//! PDOs as objects of JSON.

ghost use Rattle.std.specs.Prelude.{[], ◌∷◌, ◌≤◌, map};
ghost use Rattle.std.specs.Option.{option_map_or};
ghost use Rattle.co_sheet_text.specs.Views.{section_view};
ghost use Rattle.json.specs.Token.{begin_object};
ghost use Rattle.conode_show.specs.JsonForm.{
  counted_tokens,
  inhibit_member,
  mapped_members,
  mapped_tokens,
  mapping_tokens,
  multiplexed_tokens,
  pdo_begin,
  pdo_of,
  pdo_tokens,
  timer_members,
};
ghost use Rattle.conode_text.specs.Appended.{Appended};

use crate::member::Member;
use crate::parts::Part;
use co_sheet_text::{SectionKind, TextSection};
use co_value::Key;
use conode_json::Document;
use conode_show_text::{
    Content, Meaning, Word, has_inhibit_time, is_counted, is_pdo_cob_id, known_word, mapped_key,
    mapping_count, multiplexed_words, type_meaning,
};

fn begin_object(document: &mut Document)
    ensures { Appended document.old (begin_object ∷ []) document.new }
{
    document.put(&[Part::BeginObject]);
}

// begins a word of a mapping, with what it names, if that is known
#[tactic(auto, unfolding(crate::specs::JsonForm::mapped_members))]
fn begin_mapped<'p>(
    document: &mut Document,
    sections: &'p [TextSection<'p, 'p>],
    word: Option<Word>,
)
    ensures { Appended document.old (begin_object
        ∷ option_map_or (mapped_members (map section_view sections.entry.now)) word [])
        document.new }
{
    let Some(word) = word else {
        begin_object(document);
        return;
    };
    let key = mapped_key(word.number);
    document.put(&[
        Part::BeginObject,
        Part::Number(Member::Index, Some(key.index as i128)),
        Part::Number(Member::SubIndex, Some(key.sub as i128)),
        Part::Number(Member::Bits, Some((word.number % 0x100) as i128)),
        Part::NameAt(sections, key),
    ]);
}

// a word of a mapping
fn put_mapped<'p>(
    document: &mut Document,
    node: Option<u8>,
    sections: &'p [TextSection<'p, 'p>],
    section: &'p TextSection<'p, 'p>,
)
    ensures { Appended document.old
        (mapped_tokens node (map section_view sections.entry.now) (section_view section.entry.now))
        document.new }
{
    begin_mapped(document, sections, known_word(node, section));
    document.put(&[
        Part::Shown(Member::Words, node, Content::Said(Meaning::Mapped, section)),
        Part::EndObject,
    ]);
}

#[tactic(auto, using(conode_text::proofs::Appending::nothing))]
fn put_if_counted<'p>(
    document: &mut Document,
    node: Option<u8>,
    sections: &'p [TextSection<'p, 'p>],
    index: u16,
    count: u64,
    section: &'p TextSection<'p, 'p>,
)
    ensures { Appended document.old
        (counted_tokens node (map section_view sections.entry.now) index count
        (section_view section.entry.now)) document.new }
{
    if !is_counted(index, count, section.kind) {
        return;
    }
    put_mapped(document, node, sections, section);
}

// what a PDO maps
fn put_mapping<'p>(
    document: &mut Document,
    node: Option<u8>,
    sections: &'p [TextSection<'p, 'p>],
    index: u16,
)
    ensures { Appended document.old
        (mapping_tokens node (map section_view sections.entry.now) index) document.new }
{
    let count = mapping_count(node, sections, index);
    for section in sections {
        put_if_counted(document, node, sections, index, count, section);
    }
}

// the words of a multiplexed PDO, nothing if there are none
#[tactic(auto, using(conode_text::proofs::Appending::nothing))]
fn put_multiplexed(document: &mut Document, words: &str)
    ensures { Appended document.old (multiplexed_tokens words.now) document.new }
{
    if words.is_empty() {
        return;
    }
    document.put(&[
        Part::BeginObject,
        Part::Text(Member::Words, words),
        Part::EndObject,
    ]);
}

// a PDO before its timers: its COB-ID and transmission type
#[tactic(auto, unfolding(crate::specs::JsonForm::pdo_begin))]
fn put_pdo_begin<'p>(
    document: &mut Document,
    node: Option<u8>,
    sections: &'p [TextSection<'p, 'p>],
    index: u16,
    section: &'p TextSection<'p, 'p>,
)
    ensures { Appended document.old
        (pdo_begin node (map section_view sections.entry.now) index
        (section_view section.entry.now)) document.new }
{
    let transmission = Key { index, sub: 2 };
    document.put(&[
        Part::BeginObject,
        Part::Shown(Member::Pdo, None, Content::Pdo(index)),
        Part::Number(Member::Index, Some(index as i128)),
        Part::Said(Member::CobId, Meaning::PdoCobId, node, section),
        Part::SaidAt(
            Member::TransmissionType,
            type_meaning(index),
            node,
            sections,
            transmission,
        ),
    ]);
}

// the inhibit time, where a PDO has one
#[tactic(auto, using(conode_text::proofs::Appending::nothing))]
fn put_inhibit<'p>(
    document: &mut Document,
    node: Option<u8>,
    sections: &'p [TextSection<'p, 'p>],
    index: u16,
)
    ensures { Appended document.old
        (inhibit_member node (map section_view sections.entry.now) index) document.new }
{
    if !has_inhibit_time(index) {
        return;
    }
    let inhibit = Key { index, sub: 3 };
    document.put(&[Part::SaidAt(
        Member::InhibitTime,
        Meaning::PdoInhibit,
        node,
        sections,
        inhibit,
    )]);
}

// the event timer, and the beginning of what a PDO maps
#[tactic(auto, unfolding(crate::specs::JsonForm::timer_members))]
fn put_timer<'p>(
    document: &mut Document,
    node: Option<u8>,
    sections: &'p [TextSection<'p, 'p>],
    index: u16,
)
    ensures { Appended document.old
        (timer_members node (map section_view sections.entry.now) index) document.new }
{
    let timer = Key { index, sub: 5 };
    document.put(&[
        Part::SaidAt(
            Member::EventTimer,
            Meaning::EventTimer,
            node,
            sections,
            timer,
        ),
        Part::Array(Member::Mapped),
    ]);
}

fn put_pdo_tokens<'p>(
    document: &mut Document,
    node: Option<u8>,
    sections: &'p [TextSection<'p, 'p>],
    index: u16,
    section: &'p TextSection<'p, 'p>,
)
    requires { index ≤ 0x1BFF }
    ensures { Appended document.old
        (pdo_tokens node (map section_view sections.entry.now) index
        (section_view section.entry.now)) document.new }
{
    put_pdo_begin(document, node, sections, index, section);
    put_inhibit(document, node, sections, index);
    put_timer(document, node, sections, index);
    let mapping = index + 0x200;
    put_multiplexed(document, multiplexed_words(node, sections, mapping));
    put_mapping(document, node, sections, mapping);
    document.put(&[Part::EndArray, Part::EndObject]);
}

/// Appends a PDO, by the section of its COB-ID; nothing for any other section.
#[tactic(auto, using(conode_text::proofs::Appending::nothing))]
pub(crate) fn put_pdo<'p>(
    document: &mut Document,
    node: Option<u8>,
    sections: &'p [TextSection<'p, 'p>],
    section: &'p TextSection<'p, 'p>,
)
    ensures { Appended document.old
        (pdo_of node (map section_view sections.entry.now) (section_view section.entry.now))
        document.new }
{
    match section.kind {
        SectionKind::SubIndex(key) if is_pdo_cob_id(key) => {
            put_pdo_tokens(document, node, sections, key.index, section);
        }
        _ => {}
    }
}
