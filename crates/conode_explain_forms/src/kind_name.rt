//! The words for kinds.

ghost use Rattle.std.specs.Prelude.{◌≡◌};
ghost use Rattle.conode_explain_forms.specs.JsonLines.{kind_name};

use conode_explain_filter::Kind;

/// The word for a kind, which `--kind` takes.
pub(crate) fn kind_name(kind: Kind) -> &'static str
    ensures { result.now ≡ kind_name kind }
{
    match kind {
        Kind::Sdo => "sdo",
        Kind::Pdo => "pdo",
        Kind::Emergency => "emcy",
        Kind::Nmt => "nmt",
        Kind::Heartbeat => "heartbeat",
        Kind::Sync => "sync",
        Kind::Other => "other",
    }
}
