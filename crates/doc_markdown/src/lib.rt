//! Documents as pages in Markdown.
#![tactic(auto)]

mod laws;
mod view;

pub use laws::markdown_pages_are_read_back;
pub use view::write_markdown;
