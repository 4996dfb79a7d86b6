//! What a build fault means and how it is fixed, in words.

ghost use Rattle.std.specs.Prelude.{◌≡◌};
ghost use Rattle.co_words.specs.BuildFaultWords.{build_meaning_of, build_fix_of};

use co_dict_build::BuildFault;

/// What a build fault means, in one line.
pub fn build_meaning_of(fault: &BuildFault) -> &'static str
    ensures { result.now ≡ build_meaning_of fault.now }
{
    match fault {
        BuildFault::NodeId => "the node-ID isn't one of 1 to 127",
        BuildFault::ValueRange(_) =>
            "the default is a sum with $NODEID outside the type or the limits for this node-ID",
        BuildFault::BadCobId(_) =>
            "the COB-ID is reserved, belongs to an SDO channel or has bits that it may not have",
        BuildFault::PdoPair(_) =>
            "the PDO has no partner object, or lacks a sub-index that it needs",
        BuildFault::BadMapping(_) =>
            "the PDO counts a missing or unmappable entry, a wrong length, or more than 64 bits",
        BuildFault::TooMany =>
            "there are more than 16,384 entries, or more than 16,777,216 bytes of room",
        BuildFault::Memory => "memory ran out",
    }
}

/// How a build fault is fixed, in one line.
pub fn build_fix_of(fault: &BuildFault) -> &'static str
    ensures { result.now ≡ build_fix_of fault.now }
{
    match fault {
        BuildFault::NodeId => "give one of these",
        BuildFault::ValueRange(_) => "correct the number or the limit",
        BuildFault::BadCobId(_) => "give a free identifier, or set bit 31 of a PDO that isn't used",
        BuildFault::PdoPair(_) => "list or describe it; or take the partner out too",
        BuildFault::BadMapping(_) =>
            "set PDOMapping=1 for the entry, correct the words, or lower the count",
        BuildFault::TooMany => "take objects out of the lists; give strings and domains less room",
        BuildFault::Memory => "run it again with more memory",
    }
}
