//! Text that a reviser deleted: which CPs of a file have it, which ranges of its document they are, and their strikes.
#![tactic(auto)]

mod lists;
mod pages;
mod places;
mod ranges;
mod striking;

pub use places::{deleted_places, is_bin_table, page_in};
pub use ranges::{StoryBegins, deleted_ranges, story_begins};
pub use striking::strike_text;
