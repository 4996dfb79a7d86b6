//! The data types of CiA 301 by their names.

ghost use Rattle.std.specs.Prelude.{◌≡◌, find, option_map};
ghost use Rattle.co_sheet_text.specs.Text.{same_name};
ghost use Rattle.conode_lint_text.specs.Facts.{named_code};

use co_sheet_text::same_name;

// a name, and the code of its type
#[derive(Clone, Copy)]
struct TypeName(&'static str, u16);

const TYPE_NAMES: [TypeName; 25] = [
    TypeName("BOOLEAN", 0x0001),
    TypeName("INTEGER8", 0x0002),
    TypeName("INTEGER16", 0x0003),
    TypeName("INTEGER24", 0x0010),
    TypeName("INTEGER32", 0x0004),
    TypeName("INTEGER40", 0x0012),
    TypeName("INTEGER48", 0x0013),
    TypeName("INTEGER56", 0x0014),
    TypeName("INTEGER64", 0x0015),
    TypeName("UNSIGNED8", 0x0005),
    TypeName("UNSIGNED16", 0x0006),
    TypeName("UNSIGNED24", 0x0016),
    TypeName("UNSIGNED32", 0x0007),
    TypeName("UNSIGNED40", 0x0018),
    TypeName("UNSIGNED48", 0x0019),
    TypeName("UNSIGNED56", 0x001A),
    TypeName("UNSIGNED64", 0x001B),
    TypeName("REAL32", 0x0008),
    TypeName("REAL64", 0x0011),
    TypeName("VISIBLE_STRING", 0x0009),
    TypeName("OCTET_STRING", 0x000A),
    TypeName("UNICODE_STRING", 0x000B),
    TypeName("TIME_OF_DAY", 0x000C),
    TypeName("TIME_DIFFERENCE", 0x000D),
    TypeName("DOMAIN", 0x000F),
];

fn code_among(names: &[TypeName], name: &[u8]) -> Option<u16>
    ensures { result ≡ option_map (λ r. r.1) (find (λ r. same_name name.now r.0.now) names.now) }
{
    for row in names {
        if same_name(name, row.0.as_bytes()) {
            return Some(row.1);
        }
    }
    None
}

/// The code of a data type by its name.
#[tactic(auto, using(crate::proofs::TypeNameLemmas::by_names), unfolding(crate::specs::Facts::named_code))]
pub(crate) fn named_code(name: &[u8]) -> Option<u16>
    ensures { result ≡ named_code name.now }
{
    code_among(&TYPE_NAMES, name)
}
