//! Laws: the pages of a document in HTML and in Markdown are as long as the document. There is no code here but laws.
#![tactic(auto)]

mod laws;

pub use laws::{html_pages_are_short, markdown_pages_are_short};
