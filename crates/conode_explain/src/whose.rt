//! Whose a frame is by the COB-IDs of data sheets and of the recording, other than a PDO's.

ghost use Rattle.std.specs.Prelude.{◌≡◌, ◌<◌};
ghost use Rattle.conode_record.specs.Grammar.{IsIdentifier};
ghost use Rattle.conode_explain_entries.specs.MovedIds.{moved_in};
ghost use Rattle.conode_explain_cob_ids.specs.Buses.{bus_view};
ghost use Rattle.conode_explain_cob_ids.specs.ServiceIds.{service_with};
ghost use Rattle.conode_explain.specs.Whose.{
  by_service,
  default_id,
  is_named,
  read_by,
  whose_free,
  whose_in,
  whose_of,
};

use conode_explain_cob_ids::{Bus, Claim, NamedService, service_with};
use conode_explain_entries::{MovedId, Place};
use conode_explain_forms::read_as;
use conode_record::{Content, Identifier, Record};

/// Whose a frame is that is no PDO.
#[derive(Clone, Copy)]
pub(crate) enum Whose {
    /// Of an SDO channel other than a default one.
    Channel(Place),
    /// Of a service whose COB-ID has its identifier.
    Service(NamedService),
    /// Not of the node that has its identifier in the pre-defined connection set: the recording
    /// shows that this has another COB-ID.
    Moved(MovedId),
    /// No such COB-ID has its identifier: it is of the pre-defined connection set, or of none.
    Unnamed,
}

fn whose_at(bus: Bus<'_, '_, '_, '_, '_>, id: u16) -> Whose
    ensures { result ≡ by_service (service_with (bus_view bus.entry) id)
        (moved_in (bus_view bus.entry).entries (bus_view bus.entry).interface id) }
{
    if let Some(service) = service_with(bus, id) {
        return Whose::Service(service);
    }
    match bus.entries.moved(bus.interface, id) {
        Some(moved) => Whose::Moved(moved),
        None => Whose::Unnamed,
    }
}

fn whose_in(bus: Bus<'_, '_, '_, '_, '_>, id: Identifier, content: &Content<'_>) -> Whose
    ensures { result ≡ whose_in (bus_view bus.entry) id content.now }
{
    match (id, content) {
        (Identifier::Base(id), Content::Data(_)) => whose_at(bus, id),
        _ => Whose::Unnamed,
    }
}

fn whose_free(
    bus: Bus<'_, '_, '_, '_, '_>,
    claims: &[Claim],
    id: Identifier,
    content: &Content<'_>,
) -> Whose
    ensures { result ≡ whose_free (bus_view bus.entry) claims.now id content.now }
{
    match claims {
        [] => whose_in(bus, id, content),
        _ => Whose::Unnamed,
    }
}

/// Whose a frame is: of its SDO channel, where that isn't a default one; else, if it is none of
/// these PDOs, of the service that has its identifier.
#[tactic(auto, unfolding(crate::specs::Whose::whose_of))]
pub(crate) fn whose_of(
    bus: Bus<'_, '_, '_, '_, '_>,
    place: Option<Place>,
    claims: &[Claim],
    frame: &Record<'_>,
) -> Whose
    ensures { result ≡ whose_of (bus_view bus.entry) place claims.now frame.now }
{
    match place {
        Some(place) => Whose::Channel(place),
        None => whose_free(bus, claims, frame.id, &frame.content),
    }
}

/// Whether a COB-ID of a channel or of a service has the identifier.
pub(crate) fn is_named(whose: Whose) -> bool
    ensures { result ≡ is_named whose }
{
    match whose {
        Whose::Channel(_) | Whose::Service(_) => true,
        Whose::Moved(_) | Whose::Unnamed => false,
    }
}

fn default_id(service: NamedService) -> u16
    ensures id { result ≡ default_id service }
    ensures few { result < 2048 }
{
    match service {
        NamedService::Sync => 0x080,
        NamedService::Time => 0x100,
        NamedService::Emergency { node } => 0x080 + node as u16,
    }
}

/// The identifier as which a frame is read: that of its channel or service in the pre-defined
/// connection set; one of 29 bits where it is moved away from, since it says nothing of a node.
pub(crate) fn read_by(whose: Whose, id: Identifier) -> Identifier
    requires { IsIdentifier id }
    ensures id { result ≡ read_by whose id }
    ensures is { IsIdentifier result }
{
    match whose {
        Whose::Channel(place) => read_as(Some(place), id),
        Whose::Service(service) => Identifier::Base(default_id(service)),
        Whose::Moved(_) => Identifier::Extended(0),
        Whose::Unnamed => id,
    }
}
