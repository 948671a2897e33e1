//! The codes of the lists of a file that this profile has no meaning for, and those of which the last one of a list
//! counts, with how many lists have them.
#![tactic(auto)]

mod counts;
mod features;
mod laws;
mod losses;
mod pages;
mod prcs;

pub use laws::code_losses_are_one;
pub use losses::code_losses;
