//! The bookmarks of a document: a list in their order, whose names may differ, moved by splices of the text.
#![tactic(auto)]

mod bookmark_list;
mod bookmark_order;
mod laws;
mod names;

pub use bookmark_list::{Bookmarks, sort_names};
pub use bookmark_order::Bookmark;
pub use laws::{moves_keep_form, names_differ};
pub use names::Name;
