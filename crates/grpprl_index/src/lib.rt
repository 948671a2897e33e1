//! Grpprls of a stream, found again by their places or by their bytes.
#![tactic(auto)]

mod grpprl_index;
mod places;
mod seen_grpprls;

pub use places::ListPlaces;
pub use seen_grpprls::SeenGrpprls;
