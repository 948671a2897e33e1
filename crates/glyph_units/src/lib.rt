//! The units of glyphs, one by one, as characters.
#![tactic(auto)]

mod glyphs;
mod units;

pub use glyphs::unit_in;
pub use units::{REPLACEMENT, alone};
