//! The forms in which a dictionary is shown in lines.

/// How the lines are laid out.
#[derive(Clone, Copy)]
pub enum Format {
    /// In columns.
    Text,
    /// As tables and headings of Markdown.
    Markdown,
}
