//! Reads a Word document: the document that a file holds, or the first of all rules that it breaks.
#![tactic(auto)]

mod attached;
mod carried;
mod column_file;
mod columns;
mod document;
mod entries;
mod laws;
mod marked;
mod opened;
mod part;
mod reading;
mod sections;
mod texts;

pub use column_file::{ColumnFile, check_document, open, read_loaded};
pub use file_rules::ReadFault;
pub use laws::{
    carried_streams_are_short, document_is_one, files_hold_documents, first_fault_is_least,
    held_bookmarks_are_formed,
};
pub use opened::{Opened, read};
