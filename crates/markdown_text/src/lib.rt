//! What a Markdown page is printed of, so that no character of a document is read as markup.
#![tactic(auto)]

mod laws;
mod line;

pub use laws::{markdown_is_read_back, texts_are_read_back};
pub use line::{LineState, is_escaped_in_destination};
