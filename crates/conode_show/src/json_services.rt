//! SYNC, EMCY, heartbeats and SDO channels as objects of JSON.

ghost use Rattle.co_sheet_text.specs.Views.{section_view};
ghost use Rattle.conode_show.specs.JsonForm.{service_of_section, service_tokens};
ghost use Rattle.conode_text.specs.Appended.{Appended};

use crate::member::Member;
use crate::parts::{Part, word_number};
use co_sheet_text::TextSection;
use co_value::Key;
use conode_json::Document;
use conode_show_text::{Content, Service, key_of};

// an entry of a service
#[tactic(auto, unfolding(crate::specs::JsonForm::service_tokens))]
fn put_service_tokens<'p>(
    document: &mut Document,
    node: Option<u8>,
    section: &'p TextSection<'p, 'p>,
    key: Key,
    service: Service,
)
    ensures { Appended document.old
        (service_tokens node (section_view section.entry.now) key service) document.new }
{
    document.put(&[
        Part::BeginObject,
        Part::Number(Member::Index, Some(key.index as i128)),
        Part::Number(Member::SubIndex, Some(key.sub as i128)),
        Part::Shown(Member::Service, None, Content::Service(service)),
        Part::Number(Member::Number, word_number(node, section)),
        Part::Shown(
            Member::Words,
            node,
            Content::Said(service.meaning(), section),
        ),
        Part::EndObject,
    ]);
}

/// Appends an entry of a service; nothing for any other section.
#[tactic(auto, using(conode_text::proofs::Appending::nothing))]
pub(crate) fn put_service<'p>(
    document: &mut Document,
    node: Option<u8>,
    section: &'p TextSection<'p, 'p>,
)
    ensures { Appended document.old (service_of_section node (section_view section.entry.now))
        document.new }
{
    let Some(key) = key_of(section.kind) else {
        return;
    };
    if let Some(service) = Service::of(key) {
        put_service_tokens(document, node, section, key, service);
    }
}
