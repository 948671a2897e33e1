//! Rows: what runs of the program over files in memory print, and what edits do to documents and to sessions on their
//! files. The rows are standard input.
#![tactic(auto)]

mod answers;
mod document;
mod edited;
mod edits;
mod program;
mod session;

use edited::Edited;
use fast_save::Session;
use plain_doc::Document;
use row_language::play;
use std::process::ExitCode;

/// Plays the lines of the standard input. The status is 0 where each was understood.
fn main(rt: HostRuntime) -> ExitCode {
    match play::<HostRuntime, Edited<Document, Session>>(&rt) {
        Ok(true) => ExitCode::from(0),
        _ => ExitCode::from(1),
    }
}
