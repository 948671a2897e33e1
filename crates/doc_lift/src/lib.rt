//! Lifts the document that a file means out of it, whatever program wrote the file, or names the first of the rules
//! that are left that it breaks.
#![tactic(auto)]

mod clx_skipping;
mod gap_filling;
mod gap_reading;
mod laws;
mod lifting;
mod skipping;
mod text_lifting;

pub use file_rules::ReadFault;
pub use gap_filling::{RULE_CHPX_BIN, RULE_CHPX_RUN, RULE_PAPX_BIN, RULE_PAPX_LIST, RULE_PAPX_RUN};
pub use laws::first_lifted_fault_is_least;
pub use lifting::{Lifted, lift};
pub use skipping::{PLCF_BTE_CHPX, PLCF_BTE_PAPX};
