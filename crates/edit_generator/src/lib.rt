//! The generator: edits and saves that a number determines, and what its documents come to.
#![tactic(auto)]

mod commands;
mod laws;

pub use commands::{SAVES_IN_TURN, generated_command, generated_count};
pub use laws::{edits_add_few_runs, small_documents_have_small_saves};
