//! Documents as pages in HTML, and what pages of other forms are written by.
#![tactic(auto)]

mod anchors;
mod cells;
mod depths;
mod head;
mod heads;
mod laws;
mod notes;
mod reading;
mod title;
mod view;
mod writer;

pub use laws::{form_pages_are_one, html_pages_are_read_back, html_pages_are_safe};
pub use view::{write_form, write_html};
