//! The directory of compound files of version 3: its entries, their tree, their names, and the streams among them.
#![tactic(auto)]

mod body;
mod directory;
mod entries;
mod links;
mod names;
mod order;

pub use body::{Body, stream_claim};
pub use directory::{ENTRY_LEN, ENTRY_SIZE, ENTRY_START, entry_place, upper};
pub use entries::Entries;
pub use names::same_name;
