//! Rows: what runs of docview over files in memory print. The rows are standard input.
#![tactic(auto)]

mod shown;

use row_language::play;
use shown::Shown;
use std::process::ExitCode;

/// Plays the lines of the standard input. The status is 0 where each was understood.
fn main(rt: HostRuntime) -> ExitCode {
    match play::<HostRuntime, Shown>(&rt) {
        Ok(true) => ExitCode::from(0),
        _ => ExitCode::from(1),
    }
}
