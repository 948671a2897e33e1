//! Rows: lines that make files, run a program over them, and edit a document, and what they print. What is run and what
//! is edited is given.
#![tactic(auto)]

mod changes;
mod files;
mod lent;
mod lines;
mod names;
mod outside;
mod row;
mod row_fault;
mod rows;
mod runs;
mod streams;
mod subject;
mod words;

pub use lines::play;
pub use row_fault::RowFault;
pub use runs::REASONS_LEN;
pub use subject::{Mode, Subject};
