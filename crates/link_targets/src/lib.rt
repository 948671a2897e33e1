//! Where the links of a document lead, and what its bookmarks are called.
#![tactic(auto)]

mod links;

pub use links::{bookmark_name, instruction_of, url_in};
