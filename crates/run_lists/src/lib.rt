//! Lists kept as runs: how many times, and which value.
#![tactic(auto)]

mod change;
mod cursor;
mod cut;
mod runs;
mod shared;

pub use change::{Change, copy_runs};
pub use cursor::{Cursor, seek, value_until};
pub use cut::{Spot, find};
pub use runs::{Run, Runs};
pub use shared::Shared;
