//! Endnotes and comments of a file of any program as notes of its document.
#![tactic(auto)]

mod files;
mod forms;
mod laws;
mod main_text;
mod origins;
mod references;
mod sources;
mod splicing;
mod stories;

pub use laws::{splice_is_one, stories_are_held};
pub use splicing::{Spliced, with_further_notes};
pub use stories::NotedStories;
