//! SYNC, TIME, EMCY, heartbeats and SDO channels in words (CiA 301, 7.5.2).

ghost use Rattle.std.specs.Prelude.{◌≡◌};
ghost use Rattle.co_sheet_text.specs.Views.{section_view};
ghost use Rattle.conode_text.specs.Appended.{Appended};
ghost use Rattle.conode_show_text.specs.Phrases.{phrase_text};
ghost use Rattle.conode_show_text.specs.Services.{
  channel_of,
  key_of,
  service_line,
  service_meaning,
  service_name,
  service_of,
  service_text,
  service_words,
  way_of,
};

use crate::cells::{Cell, Content};
use crate::format::Format;
use crate::meaning::Meaning;
use crate::page::Page;
use crate::phrase::{Phrase, Piece, alone};
use co_sheet_text::{SectionKind, TextSection};
use co_value::Key;

/// The service of an entry in the communication profile.
#[derive(Clone, Copy)]
pub enum Service {
    Sync,
    /// The communication cycle period.
    SyncPeriod,
    /// The synchronous window length.
    SyncWindow,
    /// The synchronous counter overflow value.
    SyncOverflow,
    Time,
    Emcy,
    EmcyInhibitTime,
    HeartbeatConsumer,
    HeartbeatProducer,
    /// Client to server, on an SDO channel of which the device is the server; by the channel's
    /// number from 1.
    SdoRequests(u16),
    /// Server to client, on such a channel.
    SdoResponses(u16),
    /// Client to server, on an SDO channel of which the device is the client.
    ClientRequests(u16),
    /// Server to client, on such a channel.
    ClientResponses(u16),
}

impl Service {
    /// The service of an entry.
    pub fn of(key: Key) -> Option<Service>
        ensures { result ≡ service_of key }
    {
        match (key.index, key.sub) {
            (0x1005, 0) => Some(Service::Sync),
            (0x1006, 0) => Some(Service::SyncPeriod),
            (0x1007, 0) => Some(Service::SyncWindow),
            (0x1012, 0) => Some(Service::Time),
            (0x1014, 0) => Some(Service::Emcy),
            (0x1015, 0) => Some(Service::EmcyInhibitTime),
            (0x1016, sub) if 1 <= sub => Some(Service::HeartbeatConsumer),
            (0x1017, 0) => Some(Service::HeartbeatProducer),
            (0x1019, 0) => Some(Service::SyncOverflow),
            (index @ 0x1200..=0x127F, 1) => Some(Service::SdoRequests(index - 0x1200 + 1)),
            (index @ 0x1200..=0x127F, 2) => Some(Service::SdoResponses(index - 0x1200 + 1)),
            (index @ 0x1280..=0x12FF, 1) => Some(Service::ClientRequests(index - 0x1280 + 1)),
            (index @ 0x1280..=0x12FF, 2) => Some(Service::ClientResponses(index - 0x1280 + 1)),
            _ => None,
        }
    }

    /// The meaning of its number.
    pub fn meaning(self) -> Meaning
        ensures { result ≡ service_meaning self }
    {
        match self {
            Service::Sync => Meaning::SyncCobId,
            Service::SyncPeriod => Meaning::SyncPeriod,
            Service::SyncWindow => Meaning::SyncWindow,
            Service::SyncOverflow => Meaning::SyncOverflow,
            Service::Time => Meaning::TimeCobId,
            Service::Emcy
            | Service::SdoRequests(_)
            | Service::SdoResponses(_)
            | Service::ClientRequests(_)
            | Service::ClientResponses(_) => Meaning::CobId,
            Service::EmcyInhibitTime => Meaning::EmcyInhibit,
            Service::HeartbeatConsumer => Meaning::Consumer,
            Service::HeartbeatProducer => Meaning::Producer,
        }
    }
}

// the words of a service, of an SDO channel those before its number
fn service_words(service: Service) -> &'static str
    ensures { result.now ≡ service_words service }
{
    match service {
        Service::Sync => "SYNC",
        Service::SyncPeriod => "SYNC period",
        Service::SyncWindow => "SYNC window",
        Service::SyncOverflow => "SYNC counter overflow",
        Service::Time => "TIME",
        Service::Emcy => "EMCY",
        Service::EmcyInhibitTime => "EMCY inhibit time",
        Service::HeartbeatConsumer => "Heartbeat consumer",
        Service::HeartbeatProducer => "Heartbeat producer",
        Service::SdoRequests(_) | Service::SdoResponses(_) => "SDO ",
        Service::ClientRequests(_) | Service::ClientResponses(_) => "SDO client ",
    }
}

fn channel_of(service: Service) -> Option<u16>
    ensures { result ≡ channel_of service }
{
    match service {
        Service::SdoRequests(channel)
        | Service::SdoResponses(channel)
        | Service::ClientRequests(channel)
        | Service::ClientResponses(channel) => Some(channel),
        _ => None,
    }
}

// the direction of an SDO channel
fn way_of(service: Service) -> &'static str
    ensures { result.now ≡ way_of service }
{
    match service {
        Service::SdoRequests(_) | Service::ClientRequests(_) => ", client to server",
        _ => ", server to client",
    }
}

/// The name of a service.
#[tactic(auto, unfolding(crate::specs::Services::service_name, conode_text::specs::Filled::filled))]
pub(crate) fn service_name(service: Service) -> Phrase<'static>
    ensures { phrase_text result ≡ service_name service }
{
    let words = Piece::Words(service_words(service));
    match channel_of(service) {
        Some(channel) => Phrase {
            words: "%%%",
            first: words,
            second: Piece::Number(channel as u64),
            third: Piece::Words(way_of(service)),
            fourth: Piece::Nothing,
        },
        None => alone(words),
    }
}

/// The key of the entry that a section describes.
pub fn key_of(kind: SectionKind) -> Option<Key>
    ensures { result ≡ key_of kind }
{
    match kind {
        SectionKind::Object(index) => Some(Key { index, sub: 0 }),
        SectionKind::SubIndex(key) => Some(key),
        _ => None,
    }
}

// the line of an entry of a service
#[tactic(auto, unfolding(crate::specs::Services::service_line))]
fn put_line<'p>(
    page: &mut Page,
    format: Format,
    node: Option<u8>,
    key: Key,
    service: Service,
    section: &'p TextSection<'p, 'p>,
)
    ensures { Appended page.old
        (service_line format node key service (section_view section.entry.now)) page.new }
{
    page.put_line(
        format,
        node,
        &[
            Cell(0, Content::Key(key)),
            Cell(8, Content::Service(service)),
            Cell(38, Content::Said(service.meaning(), section)),
        ],
    );
}

/// Appends the line of an entry of a service; nothing for any other section.
#[tactic(auto, using(conode_text::proofs::Appending::nothing))]
pub(crate) fn put_service<'p>(
    page: &mut Page,
    format: Format,
    node: Option<u8>,
    section: &'p TextSection<'p, 'p>,
)
    ensures { Appended page.old (service_text format node (section_view section.entry.now)) page.new }
{
    let Some(key) = key_of(section.kind) else {
        return;
    };
    if let Some(service) = Service::of(key) {
        put_line(page, format, node, key, service, section);
    }
}
