//! The forms in which a dictionary is shown.

use conode_show_text::Format;

/// The form in which a dictionary is shown.
#[derive(Clone, Copy)]
pub enum Form {
    /// Lines.
    Lines(Format),
    /// One document of JSON.
    Json,
}
