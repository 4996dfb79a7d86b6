//! Undisturbed transfers one after the other over one channel, each by a client of its own.

ghost use Rattle.std.specs.Prelude.{◌≡◌, List, map};
ghost use Rattle.co_sdo_client.specs.Calls.{Call};
ghost use Rattle.co_sdo_client.specs.declared.state.ClientState.TheVariants.{Done};
ghost use Rattle.co_sdo_laws.specs.Chains.{
  Server,
  Transfer,
  IsReady,
  MayCallAll,
  IsChain,
  calls,
  outcomes,
  results,
  server_after_all,
  contents_after_all,
  all_bytes_given,
  all_in_rounds,
};

/// Permitted transfers, any mix of downloads and uploads, one after the other over one channel
/// (CiA 301, 7.2.4.2). No frame is lost or repeated, nothing times out, and each transfer goes on
/// until no frame is on its way. Then every client is done (`done`). The final contents are the
/// first ones with the bytes of the downloads, in their order (`contents`). Each upload returns the
/// bytes that its entry had when it began (`values`). Another client may then begin (`ready`). Any
/// permitted calls become such a chain if the frames of each are delivered in as many rounds as it
/// has frames (`rounds`). This is a law: a call of it changes nothing.
pub fn successive_transfers()
    ensures done { (server : Server) (transfers : List Transfer) → IsChain server transfers →
        outcomes server transfers ≡ map (λ t. Done) transfers }
    ensures contents { (server : Server) (transfers : List Transfer) → IsChain server transfers →
        (server_after_all server transfers).contents
        ≡ contents_after_all server.contents (calls transfers) }
    ensures values { (server : Server) (transfers : List Transfer) → IsChain server transfers →
        results server transfers ≡ all_bytes_given server.contents (calls transfers) }
    ensures ready { (server : Server) (transfers : List Transfer) → IsChain server transfers →
        IsReady (server_after_all server transfers) }
    ensures rounds { (server : Server) (jobs : List Call) → IsReady server →
        MayCallAll server.description server.contents jobs →
        IsChain server (all_in_rounds server.contents jobs) }
{}
