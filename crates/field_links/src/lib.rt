//! The fields that are open at a place of a text, which units are shown for a reader, and where links lead.
#![tactic(auto)]

mod instruction;
mod laws;
mod link_text;
mod places;
mod scheme;
mod waiting;
mod word;

pub use instruction::{Link, link_of};
pub use laws::{anchors_differ, links_are_allowed};
pub use link_text::{LinkText, anchor_of};
pub use places::{OpenField, OpenFieldPlaces};
pub use waiting::{is_alphanumeric, upper_hex_digit};
