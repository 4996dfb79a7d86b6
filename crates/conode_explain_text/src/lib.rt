//! The line of a frame of a recording, for people: its parts, and their text.
#![tactic(auto)]

// As `?`, without a conversion of the error: a `match` is one step of a proof where `?` is three.
macro_rules! attempt {
    ($result:expr) => {
        match $result {
            Ok(value) => value,
            Err(fault) => return Err(fault),
        }
    };
}

mod columns;
mod dates;
mod line;
mod own_line;
mod pieces;
mod said;
mod so_far;
mod stamps;

pub use columns::{push_id, push_name};
pub use line::{odd_words, set_line};
pub use own_line::set_own_line;
pub use said::add_shown;
pub use so_far::{Seen, Times};
pub use stamps::{StampForm, push_day, push_micros, push_moment, push_time_of_day};
