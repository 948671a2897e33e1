//! The canonical container: streams and a CLSID as one compound file.
#![tactic(auto)]

mod chains;
mod entries;
mod faults;
mod fields;
mod laws;
mod plan;
mod sectors;
mod sizes;
mod tree;
mod writing;

pub use faults::LayoutFault;
pub use laws::{breaks_no_rule, fat_is_least, holds_its_streams, no_file_is_shorter};
pub use sectors::{FATSECT, FREESECT, push_row};
pub use sizes::{MAX_SECTORS, sectors_needed};
pub use writing::whole;
