//! One run of `docfit`: the document that a file of Word 97 to 2007 means, as a file that docbin accepts.
#![tactic(auto)]

mod exit_code;
mod fitting;
mod lines;
mod run;
mod status;
mod words;

pub use exit_code::program;
pub use run::{PROGRAM, docfit_run, ending_of};
pub use status::STATUS_TOO_LARGE;
pub use words::Asked;
