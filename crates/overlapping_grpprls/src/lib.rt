//! Lists of sprms that lie over one another in a stream: many of them are walked at once.
#![tactic(auto)]

mod judging;
mod keeping;
mod maps;
mod ranges;
mod walk;

pub use judging::{MAX_WALKS, right_lists};
pub use maps::{WalkedMap, walked_maps};
pub use ranges::ListRange;
