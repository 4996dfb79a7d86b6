//! How a recording is explained, by which data sheets.

ghost use Rattle.std.specs.Prelude.{◌≡◌, map};
ghost use Rattle.conode_explain_forms.specs.Places.{channels_of};
ghost use Rattle.conode_explain_cob_ids.specs.Known.{known_view};

use crate::progress::Layout;
use conode_explain_cob_ids::KnownSheet;
use conode_explain_forms::SheetChannel;

/// How a recording is explained.
#[derive(Clone, Copy)]
pub struct Settings<'f, 'k, 's, 'a> {
    /// In which form.
    pub form: Layout<'f>,
    /// The data sheets that are known.
    pub sheets: &'k [KnownSheet<'s, 'a>],
    /// Their COB-IDs of SDO channels other than the default ones.
    pub channels: &'k [SheetChannel],
    // they are those of the data sheets
    ghost their_channels: { channels.now ≡ channels_of (map known_view sheets.now) },
}
