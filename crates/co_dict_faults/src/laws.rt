//! Laws of all faults of a dictionary.

ghost use Rattle.std.specs.Prelude.{
  ◌≡◌,
  ◌≤◌,
  ℕ,
  true,
  AllPairs,
  Contains,
  slice_get,
  is_some,
  is_none,
  not,
};
ghost use Rattle.std.specs.List.Sorted.{IsStrictlySortedBy};
ghost use Rattle.co_sheet.specs.SheetLaws.{IsRowBefore};
ghost use Rattle.co_dict.specs.declared.side.Side.{Side};
ghost use Rattle.co_dict.specs.Rows.{Contents};
ghost use Rattle.co_dict.specs.Stores.{Description};
ghost use Rattle.co_dict.specs.MappingWords.{word_refusal};
ghost use Rattle.co_dict.specs.MappingCounts.{count_refusal, is_mapping_index};
ghost use Rattle.co_dict_build.specs.declared.build_fault.BuildFault.{BuildFault as Fault};
ghost use Rattle.co_dict_build.specs.Built.{Plan};
ghost use Rattle.co_dict_build.specs.BuildFaults.{build_fault, is_bad_mapping};
ghost use Rattle.co_dict_faults.specs.AllBuildFaults.{build_faults_of};
ghost use Rattle.co_dict_faults.specs.BuildFaultLaws.{build_cmp, IsFaultOf};
ghost use Rattle.co_dict_faults.specs.MappingReasons.{
  side_of,
  word_reason,
  is_empty,
  counted_faults,
  mapping_faults,
};

/// All faults of a dictionary against the one that `co_dict_build::build_store` returns: that one
/// is the first of them, so there are none exactly if the dictionary can be built, given memory.
/// Each is one by the definition of its kind. For the rows of a sheet, whose keys increase, they
/// are in increasing order, so none is there twice. This is a law: a call of it changes nothing.
pub fn all_build_faults()
    ensures first { (plan : Plan) → slice_get (build_faults_of plan) 0 ≡ build_fault plan }
    ensures each { (plan : Plan) (fault : Fault) → Contains (build_faults_of plan) fault →
        IsFaultOf plan fault }
    ensures increase { (plan : Plan) → AllPairs IsRowBefore plan.rows →
        IsStrictlySortedBy build_cmp (build_faults_of plan) }
{}

/// A word of a mapping has a reason exactly where `co_dict` refuses it; a count other than 0 has
/// faults exactly where it is refused while the PDO is not valid; and an initial mapping has faults
/// exactly where it isn't allowed. This is a law: a call of it changes nothing.
pub fn mapping_reasons()
    ensures word { (side : Side) (d : Description) (word : ℕ) →
        is_some (word_reason side d word) ≡ is_some (word_refusal side d word) }
    ensures count { (side : Side) (d : Description) (contents : Contents) (index count : ℕ) →
        1 ≤ count → is_empty (counted_faults side d contents index count)
        ≡ is_none (count_refusal side d contents index count) }
    ensures mapping { (d : Description) (contents : Contents) (index : ℕ) →
        is_mapping_index (side_of index) index ≡ true →
        is_empty (mapping_faults (side_of index) d contents index)
        ≡ not (is_bad_mapping d contents (record { index = index; sub = 0 })) }
{}
