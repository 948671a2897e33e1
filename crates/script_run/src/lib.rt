//! Commands run over a document: one by one, up to the first one that stops the run.
#![tactic(auto)]

mod faults;
mod generated;
mod generating;
mod laws;
mod running;
mod saves;
mod source;

pub use faults::{RunFault, Stop};
pub use generating::{Generated, MAX_SEED, generate};
pub use laws::{generated_saves_are_small, generator_is_accepted, script_ends_once};
pub use running::{Saved, run_script};
pub use saves::{SaveCounts, count_saves};
