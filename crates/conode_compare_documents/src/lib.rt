//! A comparison as one document: of JSON, of JUnit, and as one page of HTML, which is XML too and
//! names no other file.
#![tactic(auto)]

mod coverage;
mod device;
mod differences;
mod entries;
mod head;
mod json_coverage;
mod json_findings;
mod json_text;
mod junit_cases;
mod junit_text;
mod kinds;
mod lane;
mod member;
mod page_text;
mod parts;
mod picture;
mod states;
mod style;
mod words;

pub use json_text::json_document;
pub use junit_text::junit_document;
pub use page_text::page;
