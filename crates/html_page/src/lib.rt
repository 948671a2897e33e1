//! Pages in HTML, printed of the places of a document.
#![tactic(auto)]

mod attributes;
mod images;
mod language;
mod laws;
mod names;
mod printer;
mod source;
mod tokens;
mod units;

pub use laws::{pages_are_read_back, pages_nest, tags_are_known};
pub use printer::HtmlPage;
pub use source::Source;
