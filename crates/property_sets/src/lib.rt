//! Property sets of a stream: their properties with the bytes of their values, and the names of a dictionary.
#![tactic(auto)]

mod dictionary;
mod laws;
mod property;
mod set;
mod values;

pub use dictionary::{DICTIONARY, PropertyName, property_names};
pub use laws::values_are_bounded;
pub use property::{Property, TypedValue, properties};
pub use set::{PropertyPair, SET_COUNT, property_set};
