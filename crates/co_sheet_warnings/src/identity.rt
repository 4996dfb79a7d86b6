//! The numbers of the identity object, against those of DeviceInfo.

ghost use Rattle.std.specs.Prelude.{◌≡◌, map, option_to_list};
ghost use Rattle.co_sheet.specs.SectionViews.{entry_view};
ghost use Rattle.co_sheet_text_warnings.specs.Views.{key_view};
ghost use Rattle.co_sheet_warnings.specs.Identities.{identity_key, identity_number};

use crate::communication::number_at_sub;
use co_sheet::EntrySection;
use co_sheet_text_warnings::{KnownKey, WrittenKey, other_number_at};

// the key with the number of a sub-index of the identity object, 1 to 3
fn identity_key(sub: u8) -> KnownKey
    ensures { result ≡ identity_key sub }
{
    match sub {
        1 => KnownKey::VendorNumber,
        2 => KnownKey::ProductNumber,
        _ => KnownKey::RevisionNumber,
    }
}

/// The line of VendorNumber, ProductNumber or RevisionNumber, where it isn't the number at that
/// sub-index of the identity object, which has these entries.
pub(crate) fn identity_number(keys: &[WrittenKey], parts: &[EntrySection], sub: u8) -> Option<usize>
    ensures { option_to_list result
        ≡ identity_number (map key_view keys.now) (map entry_view parts.now) sub }
{
    match number_at_sub(parts, sub) {
        Some(number) => other_number_at(keys, identity_key(sub), (number, number)),
        None => None,
    }
}
