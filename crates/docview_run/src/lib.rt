//! One run of `docview`: the page of a document, as people read it.
#![tactic(auto)]

mod exit_code;
mod file_properties;
mod laws;
mod lifting;
mod pictures;
mod run;
mod view;
mod words;

pub use exit_code::program;
pub use laws::{files_are_shown, printed_pages_are_safe, view_is_one, viewed_document_is_one};
pub use run::{PROGRAM, docview_run};
pub use view::{Form, View};
pub use words::Asked;
