//! How `check`, `lint` and devices build a dictionary.

use co_dict_build::Limits;
use conode_words::DictionaryWords;

/// The room of strings and domains.
pub(crate) fn limits_of(dictionary: &DictionaryWords) -> Limits<'static> {
    Limits {
        strings: dictionary.strings,
        domains: dictionary.domains,
        own: &[],
    }
}
