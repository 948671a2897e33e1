//! Saves of a document behind the `WordDocument` that is there: what a fast save writes.
#![tactic(auto)]

mod added;
mod counted;
mod fault;
mod kept_bins;
mod laws;
mod old_streams;
mod renewed;
mod runs;
mod saving;
mod sections;
mod word_document;
mod writing;

pub use counted::added_pages;
pub use fault::AppendFault;
pub use laws::{
    appended_files_are_short, appended_saves_are_short, counted_saves_fit, fast_saves_are_bounded,
    runs_end_with_marks,
};
pub use saving::{EditedText, SavedFile, append};
