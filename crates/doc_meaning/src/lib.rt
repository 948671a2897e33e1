//! The document that a file means, whatever rules it breaks. There is no code here but laws.
#![tactic(auto)]

mod laws;

pub use laws::{filled_is_meant, held_is_meant, loaded_is_meant, meaning_is_one, meant_is_held};
