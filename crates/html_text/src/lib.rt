//! What an HTML page is printed of, so that no character of a document is read as markup.
#![tactic(auto)]

mod characters;
mod laws;

pub use characters::reference;
pub use laws::{html_is_read_back, texts_are_no_markup, texts_are_read_back};
