//! A run without properties for the byte places that no run of the formatted disk pages holds.
#![tactic(auto)]

mod bins;
mod gaps;
mod laws;
mod page;

pub use bins::filled_bin;
pub use gaps::are_pages_within;
pub use laws::{filled_bin_is_one, filled_places_have_lists, gaps_have_no_list};
pub use page::{next_page_of, push_empty_run};
