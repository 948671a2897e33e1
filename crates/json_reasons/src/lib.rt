//! Why JSON is no script, or no document, for people.
#![tactic(auto)]

mod documents;
mod forms;
mod objects;
mod scripts;

pub use documents::why_no_document;
pub use scripts::why_no_script;
