//! Lists in blocks: a place is found block by block, and a change touches few of them.
#![tactic(auto)]

mod block;
mod build;
mod change;
mod copy;
mod list;
mod measured;
mod places;
mod put;
mod remove;
mod row;
mod walk;

pub use list::BlockList;
pub use measured::{Mapping, Measured};
pub use places::Spot;
pub use walk::Walk;
