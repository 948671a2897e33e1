//! Rows: what runs of docfit over files in memory print and put. The rows are standard input.
#![tactic(auto)]

mod fitted;

use fitted::Fitted;
use row_language::play;
use std::process::ExitCode;

/// Plays the lines of the standard input. The status is 0 where each was understood.
fn main(rt: HostRuntime) -> ExitCode {
    match play::<HostRuntime, Fitted>(&rt) {
        Ok(true) => ExitCode::from(0),
        _ => ExitCode::from(1),
    }
}
