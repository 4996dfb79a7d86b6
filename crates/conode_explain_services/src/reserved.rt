//! Identifiers that the standard reserves (CiA 301, 7.3.5).

ghost use Rattle.std.specs.Prelude.{◌≡◌};
ghost use Rattle.conode_explain_services.specs.Reserved.{
  is_lss_id,
  is_reserved,
  lss_answer_id,
  lss_request_id,
  reserved_words,
};

/// What an LSS master asks (CiA 305).
pub(crate) const LSS_REQUEST: u16 = 0x7E5;

/// What LSS slaves answer.
pub(crate) const LSS_ANSWER: u16 = 0x7E4;

/// Whether an identifier is one of LSS.
pub(crate) fn is_lss_id(id: u16) -> bool
    ensures { result ≡ is_lss_id id }
{
    id == LSS_REQUEST || id == LSS_ANSWER
}

/// Whether the standard reserves an identifier, and LSS doesn't have it.
pub(crate) fn is_reserved(id: u16) -> bool
    ensures { result ≡ is_reserved id }
{
    (0x000 < id && id < 0x080)
        || (0x100 < id && id < 0x181)
        || (0x6DF < id && id < 0x700)
        || (0x77F < id && !is_lss_id(id))
}

/// What is said of such an identifier.
#[tactic(auto, unfolding(crate::specs::Reserved::reserved_words))]
pub(crate) fn reserved_words() -> &'static str
    ensures { result.now ≡ reserved_words }
{
    "identifier that CiA 301 reserves"
}
