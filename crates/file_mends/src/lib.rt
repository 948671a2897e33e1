//! A file with named mends: its last sector is filled, changes of tab stops get the code that docbin reads, a part that
//! breaks its own rule is emptied, or a slot of the style sheet that breaks its rule. A mended file is a copy.
#![tactic(auto)]

mod file_streams;
mod lines;
mod mended_file;
mod mended_sheets;
mod mends;
mod part_places;
mod parts;
mod rewriting;
mod sectors;
mod sheet_changes;
mod sheet_places;
mod slots;
mod stops;

pub use lines::push_file_mends;
pub use mended_file::{MendedFile, mend_rule};
pub use mended_sheets::MendedCopy;
pub use mends::FileMend;
pub use parts::{PLCF_FLD_FTN, PLCF_FLD_HDR, PLCF_HDD, STTBF_BKMK};
pub use sectors::fill_sector;
pub use stops::with_stops_read;
