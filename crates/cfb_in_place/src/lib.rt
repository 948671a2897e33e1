//! A save in a container's own sectors: one stream grows, and another one is written anew.
#![tactic(auto)]

mod added;
mod allowed;
mod appending;
mod chains;
mod change;
mod header;
mod laws;
mod roles;
mod sectors;
mod sources;
mod tables;

pub use allowed::can_be_appended;
pub use appending::appended;
pub use change::Change;
pub use laws::{
    fat_fits_the_header, fat_grows_least, save_breaks_no_rule, save_has_contents, save_is_there,
    save_stays_in_place, sectors_are_reckoned, stays_over_two,
};
