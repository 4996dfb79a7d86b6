//! The statistics of buses, as a page of text.
#![tactic(auto)]

// As `?`, without a conversion of the error: a `match` is one step of a proof where `?` is three.
macro_rules! attempt {
    ($result:expr) => {
        match $result {
            Ok(value) => value,
            Err(fault) => return Err(fault),
        }
    };
}

mod cells;
mod excerpt;
mod figures;
mod finding;
mod found;
mod lines;
mod nodes;
mod pace;
mod page;
mod paper;
mod pieces;
mod sheet_facts;
mod silence;
mod tables;
mod wrong;

pub use cells::push_id;
pub use figures::gap_of;
pub use finding::{Kind, is_waiting};
pub use nodes::{is_shown, state_word};
pub use pace::{Pace, lost_gap, median};
pub use page::{Page, page_text};
pub use sheet_facts::{SheetFacts, sheet_rate, sheet_time};
pub use silence::{Silence, silence_of};
pub use tables::sorted_rows;
