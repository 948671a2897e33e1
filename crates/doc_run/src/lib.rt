//! The runs of `docbin`: from the words of a command and the files of a shelf to a status and what is
//! printed.
#![tactic(auto)]

mod command;
mod edit;
mod edit_lines;
mod generated;
mod nowhere;
mod opening;
mod quota;
mod run;
mod serve;

pub use command::Command;
pub use document_commands::{
    STATUS_DIFFERENT, STATUS_EDIT, STATUS_GUARD, STATUS_JSON, STATUS_NO_SUMMARY, STATUS_POSITION,
    STATUS_SAVE, STATUS_SCRIPT, STATUS_STYLES, STATUS_UNSOUND, STATUS_WRONG_SUMMARY,
};
pub use quota::{QUOTA_UNITS, program};
pub use run::{docbin_run, ending_of};
pub use run_stages::{
    STATUS_DONE, STATUS_MEMORY, STATUS_MISSING, STATUS_REFUSED, STATUS_SHELF_FAULT,
    STATUS_SINK_FAULT, STATUS_USAGE,
};
