//! The document that a file of Word 97 to 2007 means, mended and checked; a line for each feature that it leaves out,
//! or
//! why there is none.
#![tactic(auto)]

mod file_opening;
mod laws;
mod lines;
mod list_losses;
mod losses;
mod noting;
mod opening;
mod refusing;
mod status;
mod streams;

pub use file_opening::{OpenedFile, open_file};
pub use laws::{accepted_files_break_none, fit_units_stay};
pub use noting::open_fit;
pub use opening::{OpenedAny, open_any};
pub use refusing::{refusal, status_of_rule, why_not_opened};
pub use status::{STATUS_ENCRYPTED, STATUS_NOT_WORD};
