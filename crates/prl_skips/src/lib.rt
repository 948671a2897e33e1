//! Lists of sprms whose codes that are not read are skipped: each gets a group that no place of a document holds.
#![tactic(auto)]

mod laws;
mod skips;

pub use laws::{
    places_hold_no_pictures, skips_act_the_same, skips_are_accepted, skips_make_the_same,
    skips_modify_the_same, skips_name_the_same,
};
pub use skips::{skip_list, skip_range, skip_refused};
