//! Numbers in bytes, CP tables, places, small lists, and the words for the first broken rule.
#![tactic(auto)]

mod laws;
mod lists;
mod memory;
mod numbers;
mod owned;
mod places;
mod plcs;
mod steps;
mod sums;

pub use laws::{number_is_read_back, plc_is_read_back};
pub use lists::{Bytes, Text, Units, push_zeros, splice_list};
pub use memory::Memory;
pub use numbers::{get16, get32, put16, put32};
pub use owned::{drop_then, keep_if_ok, with_result};
pub use places::{Story, Where, lesser};
pub use plcs::{Plc, PlcFault, plc_of};
pub use steps::{Ledger, NoLedger, Steps};
pub use sums::Sums;
