//! Aborts by the first byte of a frame.

ghost use Rattle.std.specs.Prelude.{◌≡◌, ◌≢◌, ◌↔◌, ℕ, true, false, Some, List, slice_index};
ghost use Rattle.co_frame.specs.declared.block_segment.BlockSegment.{BlockSegment};
ghost use Rattle.co_frame.specs.declared.sdo_request.SdoRequest.{SdoRequest};
ghost use Rattle.co_frame.specs.declared.sdo_response.SdoResponse.{SdoResponse};
ghost use Rattle.co_frame.specs.BlockSegments.{
  IsBlockSegment,
  SpellsBlockSegment,
  block_segment_bytes,
  is_abort_in_sub_block,
};
ghost use Rattle.co_frame.specs.SdoFields.{key_in};
ghost use Rattle.co_frame.specs.SdoParts.{code_in};
ghost use Rattle.co_frame.specs.SdoRequests.{request_in, request_bytes, IsAbortRequest};
ghost use Rattle.co_frame.specs.SdoResponses.{response_in, response_bytes, IsAbortResponse};

use crate::frame::Frame;

impl Frame {
    /// Whether the frame is an abort inside a sub-block, where segments of a block transfer are
    /// expected: eight bytes, the first 80h (CiA 301, 7.2.4.3.10 and 7.2.4.3.17). A first byte 81h
    /// to 9Fh is that of a segment there, though `SdoRequest::read` and `SdoResponse::read` return
    /// an abort for it.
    pub fn is_abort_in_sub_block(&self) -> bool
        ensures { result ≡ is_abort_in_sub_block self.now.bytes }
    {
        let bytes = self.bytes();
        bytes.len() == 8 && bytes[0] == 0x80
    }
}

/// Byte 0 of what is written is 80h exactly for an abort, of a client and of a server, and never
/// for a segment of a block transfer. This is a law: a call of it changes nothing.
pub fn abort_byte()
    ensures requests { (request : SdoRequest)
        → (slice_index (request_bytes request) 0 ≡ 0x80) ↔ IsAbortRequest request }
    ensures answers { (response : SdoResponse)
        → (slice_index (response_bytes response) 0 ≡ 0x80) ↔ IsAbortResponse response }
    ensures segments { (segment : BlockSegment)
        → IsBlockSegment segment → slice_index (block_segment_bytes segment) 0 ≢ 0x80 }
    // An abort inside a sub-block is no segment, and reads as an abort.
    ensures apart { (segment : BlockSegment) (bytes : List ℕ)
        → SpellsBlockSegment segment bytes → is_abort_in_sub_block bytes ≡ false }
    ensures request { (bytes : List ℕ) → is_abort_in_sub_block bytes ≡ true
        → request_in bytes ≡ Some (SdoRequest.Abort (key_in bytes) (code_in bytes)) }
    ensures answer { (bytes : List ℕ) → is_abort_in_sub_block bytes ≡ true
        → response_in bytes ≡ Some (SdoResponse.Abort (key_in bytes) (code_in bytes)) }
{}
