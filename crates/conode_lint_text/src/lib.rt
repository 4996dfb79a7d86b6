//! The findings of `lint`, as text for people, as JSON and as SARIF.
#![tactic(auto)]

// As `?`, without a conversion of the error: a `match` is one step of a proof where `?` is three.
macro_rules! attempt {
    ($result:expr) => {
        match $result {
            Ok(value) => value,
            Err(fault) => return Err(fault),
        }
    };
}

mod bounds;
mod characters;
mod column;
mod fact;
mod facts;
mod finding;
mod json_form;
mod line_facts;
mod lists;
mod meant_section;
mod member;
mod numbers;
mod parts;
mod pieces;
mod sarif_form;
mod sums;
mod text_form;
mod type_names;
mod words;

pub use bounds::{bad_default, bad_limits};
pub use characters::push_all_shown;
pub use fact::Fact;
pub use facts::{
    bad_type, device_info, duplicate_key, duplicate_section, file_info, first_at, missing_key,
    missing_section_in, misspelt_key, reserved_value, wrong_access, wrong_type,
};
pub use finding::{About, Finding, Place, Rule, Severity};
pub use json_form::{put_document_end, put_document_head, put_file};
pub use line_facts::{
    ambiguous_number, bad_access, bad_line, bad_number, key_value, missing_section,
    misspelt_section, too_large, utf8, wrong_list,
};
pub use lists::{bad_list, is_listed_nowhere, listed_twice, missing_mandatory};
pub use meant_section::MeantSection;
pub use numbers::{identity_number, pdo_count, sub_index_0, sub_number};
pub use sarif_form::{put_log_end, put_log_head, put_results};
pub use sums::value_range;
pub use text_form::{push_finding, push_more, push_summary};
