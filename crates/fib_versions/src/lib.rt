//! The FIB of any program from Word 97 to Word 2007: checked, read, and made early.
#![tactic(auto)]

mod any_fib;
mod early;
mod further;
mod laws;
mod part_names;
mod reading;

pub use any_fib::{AnyFib, PN_NEXT};
pub use early::is_part_pair;
pub use further::Further;
pub use laws::first_version_fault_is_least;
pub use part_names::part_name;
