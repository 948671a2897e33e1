//! Parts of the table stream in whose lists the codes that are not read are skipped, in place.
#![tactic(auto)]

mod laws;
mod prcs;
mod sheets;

pub use laws::{
    sheets_are_skipped_alone, skipped_prcs_mean_the_same, skipped_sheets_mean_the_same,
};
pub use prcs::{skip_prcs, skip_prcs_in};
pub use sheets::{skip_sheet, skip_sheet_in};
