//! Definitions of tables in the stream `Data`: which CPs of a file name them, and the rows that get them.
#![tactic(auto)]

mod data;
mod defining;
mod definitions;
mod lists;
mod offsets;
mod rows;

pub use data::DATA;
pub use defining::{MAX_DEFINED, strike_and_define};
pub use offsets::huge_offsets;
