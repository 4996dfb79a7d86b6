//! Texts for people: words with values in them, and a text that remembers that memory ran out.
#![tactic(auto)]

mod filled;
mod text;
mod unseen;
mod value;

pub use filled::{HasText, push_filled};
pub use text::Text;
pub use unseen::{is_unseen, push_code};
pub use value::Value;
