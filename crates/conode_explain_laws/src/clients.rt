//! Transfers of the client.

ghost use Rattle.std.specs.Prelude.{◌≡◌, ℕ, List};
ghost use Rattle.co_sdo_client.specs.Calls.{Call};
ghost use Rattle.conode_explain_laws.specs.Downloads.{AreSome};
ghost use Rattle.conode_explain_laws.specs.Clients.{
  ClientInput,
  IsCall,
  AreRegular,
  heard,
  transfers_done,
  transfers_reported,
};

/// A download or an upload of a client, expedited, segmented or in blocks (CiA 301, 7.2.4.3), over
/// whatever frames come to it, and whenever its time is over. `done_is_reported`: where explain says
/// that a transfer is done, and the client takes it (`refuses`), the client reports it as done; the
/// frame that it is done with is the client's end, in other protocols than a block upload the answer,
/// with the direction and the entry of its call; and the data of the frames are the bytes that the
/// client downloads, or those that it has uploaded. `reported_is_done`: where each frame has eight
/// bytes, and in each sub-block of an upload the numbers of segments go up, explain says so exactly
/// where the client reports it. This is a law: a call of it changes nothing.
pub fn client_transfers()
    ensures done_is_reported { (stamp : ℕ → ℕ) (call : Call) (inputs : List ClientInput) →
        IsCall call →
        AreSome (transfers_done call (heard stamp call inputs)) (transfers_reported stamp call inputs) }
    ensures reported_is_done { (stamp : ℕ → ℕ) (call : Call) (inputs : List ClientInput) →
        IsCall call → AreRegular call inputs →
        transfers_done call (heard stamp call inputs) ≡ transfers_reported stamp call inputs }
{}
